//! Worked rows: quotients and remainders that the method reaches.
ghost use Rattle.std.specs.Prelude.{◌≡◌};
ghost use Rattle.ap_unit.specs.Methods.{after_steps};
ghost use Rattle.ap_div.specs.Quotients.{divide, quotient_step};

/// At 4 bits 13 is 2 times 5 and 3 over. Into the first two bits of 13, which are 3, 5 doesn't go.
fn thirteen_by_five()
    ensures two { after_steps (divide 4) 13 5 2 ≡ record { high = 3; low = 4 } }
    ensures last { after_steps (divide 4) 13 5 4 ≡ record { high = 3; low = 2 } }
{}

/// A divisor of 0 gives all ones, and the dividend.
fn by_zero()
    ensures four { after_steps (divide 4) 13 0 4 ≡ record { high = 13; low = 15 } }
    ensures one { after_steps (divide 1) 1 0 1 ≡ record { high = 1; low = 1 } }
{}

/// A longer rest may have one bit more than the numbers: 2 and a bit at 2 bits, of which 3 is taken.
fn rest_beyond()
    ensures { quotient_step 2 3 (record { high = 2; low = 2 }) ≡ record { high = 2; low = 1 } }
{}
