//! What a design's processor is run on.
ghost use Rattle.std.specs.Prelude.{◌≡◌, IfOk, map};
ghost use Rattle.ap_desc.specs.Clean.{IsClean};
ghost use Rattle.ap_desc.specs.declared.design.InPort.{InPort as DeclaredInput};
ghost use Rattle.ap_desc.specs.declared.design.Mem.{Mem as DeclaredMem};
ghost use Rattle.ap_model.specs.DesignShape as shapes;

use ap_bits::{Items, NoMemory};
use ap_desc::design::{Design, InPort, Mem};
use ap_image::{MemShape, Shape};
use std::alloc::Global;

/// What an image says of a data memory.
fn mem_shape(alloc: Global, mem: &Mem) -> Result<MemShape, NoMemory>
    ensures { IfOk result (λ shape. shape ≡ record {
      name = mem.now.name;
      address = mem.now.address;
      width = mem.now.width;
    }) }
{
    let name = mem.name.copy(alloc)?;
    Ok(MemShape {
        name,
        address: mem.address,
        width: mem.width,
    })
}

/// The data memories of an image.
fn mem_shapes(alloc: Global, mems: &[Mem]) -> Result<Items<MemShape>, NoMemory>
    ensures { IfOk result (λ shapes. shapes ≡ map (λ (m : DeclaredMem).
        record { name = m.name; address = m.address; width = m.width }) mems.now) }
{
    let mut shapes = Items::new(alloc);
    for mem in mems {
        shapes.push(mem_shape(alloc, mem)?)?;
    }
    Ok(shapes)
}

/// The bits of each input port.
fn input_widths(alloc: Global, inputs: &[InPort]) -> Result<Items<u32>, NoMemory>
    ensures { IfOk result (λ widths.
        widths ≡ map (λ (p : DeclaredInput). p.width) inputs.now) }
{
    let mut widths = Items::new(alloc);
    for input in inputs {
        widths.push(input.width)?;
    }
    Ok(widths)
}

/// What the design's processor is run on: the bits of its code addresses and words, its data memories, and the bits of its input
/// ports. `NoMemory` comes only where memory ran out.
pub fn shape_of(alloc: Global, design: &Design) -> Result<Shape, NoMemory>
    requires { IsClean design.now }
    ensures { IfOk result (λ shape. shape ≡ shapes.shape_of design.now) }
{
    let mems = mem_shapes(alloc, design.mems.as_slice())?;
    let inputs = input_widths(alloc, design.inputs.as_slice())?;
    Ok(Shape::new(design.address, design.word, mems, inputs))
}
