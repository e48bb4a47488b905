ghost use Rattle.std.specs.Prelude.{◌≡◌};
ghost use Rattle.std.specs.List.{list_any};
ghost use Rattle.ap_image.specs.Shapes.{are_mems_named, is_mem_named};

use ap_bits::{Items, Name};
use std::marker::Model;

/// A data memory: its name, and the bits of an address and of a word.
#[derive(Drop)]
pub struct MemShape {
    pub name: Name,
    pub address: u32,
    pub width: u32,
}

/// What a processor is run on: the bits of a code address and of a code word, the data memories, and the bits of each input
/// port. Contracts see a record of the same fields.
///
/// A shape keeps in its type that the names of its memories differ, and that none of them is `code`.
#[derive(Drop)]
pub struct Shape {
    code_address: u32,
    code_width: u32,
    mems: Items<MemShape>,
    inputs: Items<u32>,
}

/// Whether a memory has this name.
fn is_named(mem: &MemShape, name: &str) -> bool
    ensures { result ≡ is_mem_named name.now mem.now }
{
    name == mem.name.as_str()
}

/// Whether one of the memories has this name.
fn has_name(mems: &[MemShape], name: &str) -> bool
    ensures { result ≡ list_any (is_mem_named name.now) mems.now }
{
    mems.iter().any(|mem| is_named(mem, name))
}

/// Whether the names of the memories differ, and none of them is `code`.
fn are_mems_named(mems: &[MemShape]) -> bool
    ensures { result ≡ are_mems_named mems.now }
{
    match mems {
        [first, rest @ ..] => {
            let name = first.name.as_str();
            name != "code" && !has_name(rest, name) && are_mems_named(rest)
        }
        [] => true,
    }
}

impl Model for Shape {
    ghost use Rattle.ap_image.specs.Shapes.{Shape, IsShape};

    ghost Value = { Shape };

    ghost view = { λ s. record {
      code_address = s.code_address;
      code_width = s.code_width;
      mems = s.mems;
      inputs = s.inputs;
    } };

    ghost invariant = { λ s. IsShape (record {
      code_address = s.code_address;
      code_width = s.code_width;
      mems = s.mems;
      inputs = s.inputs;
    }) };
}

impl Shape {
    ghost use Rattle.std.specs.Prelude.{IfNone, IfSome};
    ghost use Rattle.ap_image.specs.Shapes.{IsShape, shape_with};

    /// The shape with these parts, and None where two memories have one name or one is named `code`.
    pub fn checked(
        code_address: u32,
        code_width: u32,
        mems: Items<MemShape>,
        inputs: Items<u32>,
    ) -> Option<Shape>
        ensures some { IfSome result (λ s. s ≡ shape_with code_address code_width mems inputs) }
        ensures none { IfNone result
            (IsShape (shape_with code_address code_width mems inputs) → ⊥) }
    {
        if !are_mems_named(mems.as_slice()) {
            return None;
        }
        Some(Shape::new(code_address, code_width, mems, inputs))
    }

    /// The shape with these parts.
    pub fn new(
        code_address: u32,
        code_width: u32,
        mems: Items<MemShape>,
        inputs: Items<u32>,
    ) -> Shape
        requires { IsShape (record {
          code_address = code_address;
          code_width = code_width;
          mems = mems;
          inputs = inputs;
        }) }
        ensures { result ≡ record {
          code_address = code_address;
          code_width = code_width;
          mems = mems;
          inputs = inputs;
        } }
    {
        Shape {
            code_address,
            code_width,
            mems,
            inputs,
        }
    }

    /// What every shape keeps, as a fact that callers can use.
    pub fn rules(&self)
        ensures { IsShape self.now }
    {
        let _ = &self.mems;
    }

    /// The bits of a code address.
    pub fn code_address(&self) -> u32
        ensures { result ≡ self.now.code_address }
    {
        self.code_address
    }

    /// The bits of a code word.
    pub fn code_width(&self) -> u32
        ensures { result ≡ self.now.code_width }
    {
        self.code_width
    }

    /// The data memories in order.
    pub fn mems(&self) -> &[MemShape]
        ensures { result.now ≡ self.now.mems }
    {
        self.mems.as_slice()
    }

    /// The bits of each input port, in order.
    pub fn inputs(&self) -> &[u32]
        ensures { result.now ≡ self.now.inputs }
    {
        self.inputs.as_slice()
    }
}
