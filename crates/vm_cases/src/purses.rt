// A guest under the house limit: the smaller of the two limits stops a run. What remains of both is seen in every case.
use crate::report::{Tally, agrees};
use crate::rooms::{pushed_under, pushing};
use crate::run::Set;

pub fn cases(tally: &mut Tally) {
    let every = (0..13).all(|guest| (0..13).all(|house| pair(guest, house)));
    tally.verdict("PushConst, every pair of limits to 12", every);
    under(
        tally,
        "PushConst, step limit 3, no house limit",
        Some(3),
        None,
    );
    under(
        tally,
        "PushConst, no step limit, house limit 3",
        None,
        Some(3),
    );
    let most = Some(u64::MAX);
    under(
        tally,
        "PushConst, step limit and house limit 2^64 - 1",
        most,
        most,
    );
    under(
        tally,
        "PushConst, no step limit, house limit 2^64 - 1",
        None,
        most,
    );
}

fn pair(guest: u64, house: u64) -> bool {
    let set = Set::plain().limits(Some(guest), Some(house));
    agrees(&pushing(), set, pushed_under(guest.min(house)))
}

fn under(tally: &mut Tally, name: &str, guest: Option<u64>, house: Option<u64>) {
    let limit = |limit: Option<u64>| limit.unwrap_or(u64::MAX);
    let want = pushed_under(limit(guest).min(limit(house)));
    tally.case(name, &pushing(), Set::plain().limits(guest, house), want);
}
