// What holds of the machine, whatever it stands at: laws, each the contract of a function that does nothing.
ghost use Rattle.eval.specs.Takes.{TakenAtOnce};

/// A record that takes several operands one after another leaves what it leaves by taking them at once: those that are there leave
/// the stack, and each that is not is counted as an empty pop.
pub fn taken_at_once()
    ensures { TakenAtOnce }
{}
