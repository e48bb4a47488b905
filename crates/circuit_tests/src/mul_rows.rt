//! Worked rows: products that the method reaches.
ghost use Rattle.std.specs.Prelude.{◌≡◌};
ghost use Rattle.ap_unit.specs.Methods.{after_steps};
ghost use Rattle.ap_mul.specs.Products.{multiply, product_step};

/// At 4 bits 13 times 11 is 143, which is 8 times 16 and 15 over. The first step adds 13, and moves 13 and 11 down by a bit.
fn thirteen_times_eleven()
    ensures first { after_steps (multiply 4) 13 11 1 ≡ record { high = 6; low = 13 } }
    ensures last { after_steps (multiply 4) 13 11 4 ≡ record { high = 8; low = 15 } }
{}

/// At one bit a step is the whole product.
fn one_bit()
    ensures both { after_steps (multiply 1) 1 1 1 ≡ record { high = 0; low = 1 } }
    ensures first { after_steps (multiply 1) 1 0 1 ≡ record { high = 0; low = 0 } }
{}

/// A sum may have one bit more than the numbers: 3 and 3 at 2 bits.
fn sum_beyond()
    ensures { product_step 2 3 (record { high = 3; low = 1 }) ≡ record { high = 3; low = 0 } }
{}
