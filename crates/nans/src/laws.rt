// One NaN in every run, and two hosts that no program tells apart.
ghost use Rattle.nans.specs.OneNan.{OneNanInCalls, OneNanEver};
ghost use Rattle.nans.specs.Hosts.{SameOnHosts};
ghost use Rattle.nans.specs.Entrances.{FloatsEnter, HashesEnter, NotTold, MadeUp};

/// In the answer to an accepted call no NaN but 7FC00000 stands as value, in accumulator, temps or stack or in a cell that was stored
/// to; and a cell that no record stored to keeps its kind and its bits.
pub fn one_nan_in_calls()
    ensures { OneNanInCalls }
{}

/// From any state with no other NaN in accumulator, stack and temps, none ever stands there or in a cell that was stored to, each time
/// that a charge falls due and at the end; and a cell that no record stored to keeps its kind and its bits.
pub fn one_nan()
    ensures { OneNanEver }
{}

/// Two calls that differ in nothing but the bits of NaNs in float cells, float context cells and `this` get the same reply and the
/// same stores, but for the cells that no record stored to.
pub fn same_on_hosts()
    ensures { SameOnHosts }
{}

/// Each entrance alone, with six NaNs: eleven of a float, two of a hash; that no number equals the file's hash; and five records from
/// a state in which another NaN stands.
pub fn entrances()
    ensures floats_enter { FloatsEnter }
    ensures hashes_enter { HashesEnter }
    ensures not_told { NotTold }
    ensures made_up { MadeUp }
{}
