// What a call answers to the host.

use table::refusal::Refusal;

// Number 0: the call is taken, and the value is its answer. Else the refusal's number, and its place.
// Two numbers, no Result: the C interface, `rack_answer` in include/rack.h.
#[repr(C)]
#[derive(Clone, Copy)]
pub struct RackAnswer {
    pub number: u64,
    pub value: u64,
}

#[tactic(auto, unfolding(crate::specs::RackCalls::refused_as))]
impl From<Refusal> for RackAnswer {
    ghost use Rattle.std.specs.Prelude.{◌≡◌};
    ghost use Rattle.rack.specs.RackCalls.{refused_as};

    ghost from_gives = { λ refusal answer. answer ≡ refused_as refusal };

    fn from(refusal: Refusal) -> RackAnswer {
        RackAnswer {
            number: refusal.number(),
            value: refusal.place(),
        }
    }
}

#[tactic(auto, unfolding(crate::specs::RackCalls::answered_as))]
impl From<Result<u64, Refusal>> for RackAnswer {
    ghost use Rattle.std.specs.Prelude.{◌≡◌};
    ghost use Rattle.rack.specs.RackCalls.{answered_as};

    ghost from_gives = { λ called answer. answer ≡ answered_as called };

    fn from(called: Result<u64, Refusal>) -> RackAnswer {
        match called {
            Ok(value) => RackAnswer { number: 0, value },
            Err(refusal) => refusal.into(),
        }
    }
}
