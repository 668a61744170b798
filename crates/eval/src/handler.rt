// vm/eval/mod.rs: a handler of `??`, and the word that it is in its store.
ghost use Rattle.std.specs.Prelude.{◌≡◌, ◌<◌, ◌^◌};

use crate::machine::Mark;

// A handler: where a missing value goes on, and the depths to unwind to.
#[derive(Clone, Copy)]
pub struct Handler {
    pub to: u32,
    pub mark: Mark,
    ghost fits_stack_mark: { mark.stack < 2 ^ 20 },
    ghost fits_loop_mark: { mark.loops < 2 ^ 12 },
}

// The word of a handler in its store: the target, then the stack mark in 20 bits, then the loop mark in 12.
impl From<Handler> for u64 {
    ghost use Rattle.eval.specs.State.{packed, handler_of};

    ghost from_gives = { λ h w. w ≡ packed (handler_of h) };

    #[tactic(auto, unfolding(crate::specs::State::packed))]
    fn from(h: Handler) -> u64 {
        (h.to as u64) << 32 | (h.mark.stack as u64) << 12 | h.mark.loops as u64
    }
}

// The handler of a word.
impl From<u64> for Handler {
    ghost use Rattle.eval.specs.State.{unpacked, handler_of};

    ghost from_gives = { λ w h. handler_of h ≡ unpacked w };

    #[tactic(auto, unfolding(crate::specs::State::unpacked))]
    fn from(w: u64) -> Handler {
        Handler {
            to: (w >> 32) as u32,
            mark: Mark {
                stack: (w >> 12 & 0xF_FFFF) as usize,
                loops: (w & 0xFFF) as usize,
            },
        }
    }
}
