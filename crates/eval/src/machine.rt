// vm/eval/mod.rs and machine.rs: the state of a run, and the steps that every record is made of.
ghost use Rattle.std.specs.Prelude.{◌≡◌, ◌≤◌, length};
ghost use Rattle.eval.specs.Stacks.{often};
ghost use Rattle.eval.specs.Machine.{outcome_number, counted, at, stop};
ghost use Rattle.eval.specs.Acts.{next, loaded, pushed, add_acc};
ghost use Rattle.eval.specs.State.{Stores, Starts, HasNext, OnStack, Acts, Took, Writes, with_stack};
ghost use Rattle.eval.specs.Run.{is_running};

use numeric::fpu;

// Whether a run goes on, or how it ended. An account has 0 to 5.
// Not an `Option` of the six ends: tried and proved; the tight loop makes 45.5 instructions a charge for 33.3.
#[derive(Clone, Copy, Debug, PartialEq, Eq)]
pub enum Outcome {
    Done = 0,
    Steps = 1,
    MissingValue = 2,
    StackCap = 3,
    Full = 4,
    HandedOver = 5,
    Running = 6,
}

impl Outcome {
    // Whether the run goes on.
    pub fn is_running(self) -> bool
        ensures { result ≡ is_running (outcome_number self) }
    {
        matches!(self, Outcome::Running)
    }
}

// The number of an outcome.
impl From<Outcome> for u32 {
    ghost from_gives = { λ o n. n ≡ outcome_number o };

    fn from(o: Outcome) -> u32 {
        o as u32
    }
}

// A number that no outcome of an account has.
#[derive(Clone, Copy, Debug, PartialEq, Eq)]
pub struct UnknownOutcome(pub u32);

// The outcome of a number in an account, which has none of a run that goes on.
impl TryFrom<u32> for Outcome {
    ghost use Rattle.eval.specs.Machine.{Ended};

    type Error = UnknownOutcome;

    ghost try_from_gives = { Ended };

    fn try_from(number: u32) -> Result<Outcome, UnknownOutcome> {
        match number {
            0 => Ok(Outcome::Done),
            1 => Ok(Outcome::Steps),
            2 => Ok(Outcome::MissingValue),
            3 => Ok(Outcome::StackCap),
            4 => Ok(Outcome::Full),
            5 => Ok(Outcome::HandedOver),
            _ => Err(UnknownOutcome(number)),
        }
    }
}

// The depths of the operand stack and the loops at one point of a run.
#[derive(Clone, Copy)]
pub struct Mark {
    pub stack: usize,
    pub loops: usize,
}

// Where a run starts; the handlers below `handlers` are not its own. By name, as the Rust has it (docs/DECISIONS.md).
#[derive(Clone, Copy)]
pub struct Base {
    pub mark: Mark,
    pub handlers: usize,
}

impl Base {
    pub const ROOT: Base = Base {
        mark: Mark { stack: 0, loops: 0 },
        handlers: 0,
    };
}

// The notice counts, as an account has them.
#[repr(C)]
#[derive(Clone, Copy, Debug, Default, PartialEq, Eq)]
pub struct Notices {
    pub missing_member: u64,
    pub access_underflow: u64,
    pub loop_limit: u64,
}

// The machine of one run, but for what lies in the lent stores. Scalars, with the accumulator and the outcome not at the
// end: there the compiler copies both as one word, and asks every step for the outcome (docs/SPEED.md).
#[derive(Clone, Copy)]
pub struct State {
    // With no bound of its own (`HasNext`), since `go_on` would not keep it.
    pub pos: usize,
    pub charges: u64,
    pub acc: u32,
    pub outcome: Outcome,
    // Depths, not beside their stores: a missing value cuts the stack and the loops, and every load would be lent both.
    pub stack: usize,
    pub loops: usize,
    pub handlers: usize,
    pub notices: Notices,
    // How often an operand was taken that was not there.
    pub empty_pops: u64,
}

// An operand that was taken from the stack, if one was there, and the state without it.
#[derive(Clone, Copy)]
pub struct Taken {
    pub number: Option<u32>,
    pub left: State,
}

// One more, but for the largest.
pub fn count(n: u64) -> u64
    ensures { result ≡ counted n }
{
    n.saturating_add(1)
}

// `k` more, but no more than the largest.
#[tactic(auto, using(crate::proofs::Takes::often_counted))]
pub fn count_many(n: u64, k: usize) -> u64
    ensures { result ≡ often k counted n }
{
    n.saturating_add(k as u64)
}

impl State {
    // A run that has not begun.
    pub fn start() -> State
        ensures { (x : Stores) → Starts result x }
    {
        State {
            pos: 0,
            charges: 0,
            acc: 0,
            outcome: Outcome::Running,
            stack: Base::ROOT.mark.stack,
            loops: Base::ROOT.mark.loops,
            handlers: Base::ROOT.handlers,
            notices: Notices::default(),
            empty_pops: 0,
        }
    }

    // The run ends.
    pub fn stop(mut self, o: Outcome) -> State
        ensures { Acts (stop (outcome_number o)) self result }
    {
        self.outcome = o;
        self
    }

    // A jump.
    pub fn goto(mut self, p: usize) -> State
        ensures { Acts (at p) self result }
    {
        self.pos = p;
        self
    }

    // The next position.
    pub fn go_on(mut self) -> State
        requires { HasNext self }
        ensures { Acts next self result }
    {
        self.pos += 1;
        self
    }

    // The accumulator takes a number, and the next position.
    pub fn load(mut self, v: u32) -> State
        requires { HasNext self }
        ensures { Acts (loaded v) self result }
    {
        self.acc = v;
        self.pos += 1;
        self
    }

    // The operand on top is taken; where there is none, that is counted.
    pub fn take(mut self, stack: &[u32]) -> Taken
        requires { self.stack ≤ length stack.now }
        ensures { Took self stack.now result }
    {
        if self.stack == 0 {
            self.empty_pops = count(self.empty_pops);
            return Taken {
                number: None,
                left: self,
            };
        }
        let number = Some(stack[self.stack - 1]);
        self.stack -= 1;
        Taken { number, left: self }
    }

    // An operand is pushed; a full store stops the run.
    #[inline(always)]
    pub fn push(mut self, v: u32, stack: &mut [u32]) -> State
        requires { OnStack self stack.old }
        ensures { let room = length stack.old in
            Writes (with_stack stack.old) (with_stack stack.new) (pushed room v) self result }
    {
        if self.stack < stack.len() {
            stack[self.stack] = v;
            self.stack += 1;
            self.pos += 1;
            self
        } else {
            self.stop(Outcome::Full)
        }
    }

    // The accumulator is added to the top, if there is one.
    #[inline(always)]
    pub fn add_acc(mut self, stack: &mut [u32]) -> State
        requires { OnStack self stack.old }
        ensures { Writes (with_stack stack.old) (with_stack stack.new) add_acc self result }
    {
        self.pos += 1;
        if self.stack == 0 {
            return self;
        }
        let top = self.stack - 1;
        stack[top] = fpu::add(stack[top], self.acc);
        self
    }
}
