// House: long working stores. They are all that it has other than studio: a `serve` generic over their lengths would take
// three numbers without names.
#![tactic(auto)]

use report::Stores;

fn main(rt: HostRuntime) {
    let stores = Stores {
        stack: &mut [0; 65600],
        loops: &mut [0; 64],
        handlers: &mut [0; 64],
    };
    report::serve(&rt, b"house", stores);
}
