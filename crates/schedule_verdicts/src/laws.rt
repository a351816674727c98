//! What is judged of worlds that differ in registers and condition codes alone that do not matter.

ghost use Rattle.std.specs.Prelude.{◌≡◌, List};
ghost use Rattle.processor.specs.World.{World};
ghost use Rattle.expectations.specs.declared.expectation.Expectation.{Expectation};
ghost use Rattle.claims.specs.declared.claim.Claim.{Claim};
ghost use Rattle.busy_streams.specs.DeadRegisters.Clearing.{LiveValue, AgreeBy};
ghost use Rattle.schedule_verdicts.specs.KeptClaims.{all_hold};
ghost use Rattle.schedule_verdicts.specs.NamedRegisters.{AreAllNamed};
ghost use Rattle.schedule_verdicts.specs.RightEnds.{IsRightEnd, are_met};

/// Two worlds that agree, which is to differ in registers and condition codes alone that do not matter, meet the same
/// expectations where the registers that these look at are named; the same traps and waits are expected, and where nothing
/// goes on both are right ends or neither is. The same claims hold of both: claims look at no register and at no code.
pub fn agreeing_worlds_are_judged_alike()
    ensures met { (l : LiveValue) (a b : World) (expected : List Expectation) → AgreeBy l a b
        → AreAllNamed expected l.names → are_met a expected ≡ are_met b expected }
    ensures right { (l : LiveValue) (a b : World) (expected : List Expectation) → AgreeBy l a b
        → AreAllNamed expected l.names → IsRightEnd expected a → IsRightEnd expected b }
    ensures claims { (l : LiveValue) (a b : World) (claims : List Claim) → AgreeBy l a b
        → all_hold claims a ≡ all_hold claims b }
{}
