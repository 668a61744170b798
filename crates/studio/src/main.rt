// Studio: short working stores. They are all that it has other than house: a `serve` generic over their lengths would take
// three numbers without names.
#![tactic(auto)]

use report::Stores;

fn main(rt: HostRuntime) {
    let stores = Stores {
        stack: &mut [0; 16],
        loops: &mut [0; 4],
        handlers: &mut [0; 4],
    };
    report::serve(&rt, b"studio", stores);
}
