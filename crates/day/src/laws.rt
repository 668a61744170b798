// What holds of a day of calls: laws, each the contract of a function that does nothing.
ghost use Rattle.day.specs.Day.{DayAddsUp, NeverMore, RefusedTakesNothing, RestOfDay};

/// What the calls of a day charged in all, and what remains after the last, make the house limit that the day began with.
pub fn day_adds_up()
    ensures { DayAddsUp }
{}

/// A partner is never given more than the house limit.
pub fn never_more()
    ensures { NeverMore }
{}

/// A refused call takes nothing from the day.
pub fn refused_takes_nothing()
    ensures { RefusedTakesNothing }
{}

/// A day may be cut anywhere: what remains of its first part is what its second begins with.
pub fn rest_of_day()
    ensures { RestOfDay }
{}
