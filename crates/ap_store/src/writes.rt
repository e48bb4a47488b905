//! Write ports: their inputs, and what the cells take at the edge.
ghost use Rattle.std.specs.Prelude.{◌≡◌, ℕ, ◌≤◌, ◌<◌, ◌++◌, IfOk, OnOk, All, IsTrue, length};
ghost use Rattle.std.specs.List.{AllByRecursion as Each, flat_map, range_with_len};
ghost use Rattle.ap_desc.specs.Designs.{is_file_within};
ghost use Rattle.ap_net.specs.Names.{IsNew};
ghost use Rattle.ap_net.specs.Modules.{ports_among};
ghost use Rattle.ap_net.specs.Draft.{CanFresh, Means, names_of};
ghost use Rattle.ap_net.specs.Making.{Makes};
ghost use Rattle.ap_comb.specs.Choices.{IsOfWidth, values_of};
ghost use Rattle.ap_store.specs.Cells.{after_writes};
ghost use Rattle.ap_store.specs.Writers.{IsWriter, port_write, ports_write};
ghost use Rattle.ap_store.specs.FilePorts.{write_ports};
ghost use Rattle.ap_store.specs.Building.{AreWrites, Grows, names_below, with_write, write_names, write_wires};

use crate::decoder::decoded;
use crate::order::write_order;
use crate::shape::index_width;
use ap_bits::NoMemory;
use ap_desc::design::File;
use ap_net::builder::Builder;
use ap_net::cell::{Cell, Wire};

/// The nets of a write port.
#[derive(Clone, Copy, Debug, PartialEq, Eq)]
pub(crate) struct WritePort {
    /// One bit: whether a value is written.
    pub enable: Wire,
    /// The cell that is written.
    pub index: Wire,
    /// The value that is written.
    pub value: Wire,
}

/// Declares the inputs of a write port.
pub(crate) fn declare_write(
    out: &mut Builder,
    file: &File,
    number: u32,
) -> Result<WritePort, NoMemory>
    requires file { IsTrue (is_file_within file.now) }
    requires number { number < 2 }
    requires names { Each (λ name. IsNew name (names_of out.old)) (write_names number) }
    ensures ok { OnOk result (out.new ≡ with_write out.old file.now number) }
    ensures port { IfOk result (λ port. port ≡ write_wires out.old file.now) }
    ensures grows { OnOk result (Grows (write_names number) out.old out.new) }
{
    let alloc = out.allocator();
    let name = format!(in alloc; "w{number}_e")?;
    let enable = out.input(name.as_bytes(), 1)?;
    let name = format!(in alloc; "w{number}_x")?;
    let index = out.input(name.as_bytes(), index_width(file))?;
    let name = format!(in alloc; "w{number}_v")?;
    let value = out.input(name.as_bytes(), file.width)?;
    Ok(WritePort {
        enable,
        index,
        value,
    })
}

/// Declares the write ports.
pub(crate) fn declare_writes(out: &mut Builder, file: &File) -> Result<Vec<WritePort>, NoMemory>
    requires file { IsTrue (is_file_within file.now) }
    requires names { (n : ℕ) → n < 2 → Each (λ name. IsNew name (names_of out.old)) (write_names n) }
    ensures count { IfOk result (λ ports. length ports.items ≡ file.now.writes) }
    ensures ports { IfOk result (λ ports. AreWrites out.new file.now ports.items) }
    ensures shown { OnOk result (ports_among out.new.nets ≡ ports_among out.old.nets
        ++ flat_map (write_ports file.now) (range_with_len 0 file.now.writes)) }
    ensures grows { OnOk result
        (Grows (names_below write_names file.now.writes) out.old out.new) }
{
    let mut ports = Vec::new(out.allocator());
    for number in 0..file.writes {
        let port = declare_write(out, file, number)?;
        ports.push(port)?;
    }
    Ok(ports)
}

/// What the cells have after the write of a port: the one that it writes its value, the others what they had.
#[tactic(auto, using(ap_net::proofs::Laws::laws))]
fn written(
    out: &mut Builder,
    port: WritePort,
    cells: &[Wire],
    width: u32,
) -> Result<Vec<Wire>, NoMemory>
    requires fresh { CanFresh out.old }
    requires port { IsWriter out.old.nets width (length cells.now) port }
    requires cells { All (IsOfWidth out.old.nets width) cells.now }
    requires low { 1 ≤ width }
    requires high { width ≤ 64 }
    ensures count { IfOk result (λ made. length made.items ≡ length cells.now) }
    ensures nets { IfOk result (λ made. All (IsOfWidth out.new.nets width) made.items) }
    ensures value { IfOk result (λ made. Means out.old out.new (λ read. values_of read made.items
        ≡ after_writes (values_of read cells.now) (port_write read port))) }
    ensures makes { OnOk result (Makes out.old out.new) }
{
    let lines = decoded(out, port.index, port.enable)?;
    let mut made = Vec::new(out.allocator());
    for (index, cell) in cells.iter().enumerate() {
        let after = out.make(width, Cell::Choose(lines[index], port.value, *cell))?;
        made.push(after)?;
    }
    Ok(made)
}

/// What the cells take at the edge: what they hold with the writes of the cycle, in their order, where each write port has its
/// stage.
#[tactic(auto, using(ap_net::proofs::Laws::laws))]
pub(crate) fn next_cells(
    out: &mut Builder,
    ports: &[WritePort],
    stages: &[u32],
    cells: &[Wire],
    width: u32,
) -> Result<Vec<Wire>, NoMemory>
    requires fresh { CanFresh out.old }
    requires ports { All (IsWriter out.old.nets width (length cells.now)) ports.now }
    requires stages { length stages.now ≡ length ports.now }
    requires cells { All (IsOfWidth out.old.nets width) cells.now }
    requires low { 1 ≤ width }
    requires high { width ≤ 64 }
    ensures count { IfOk result (λ made. length made.items ≡ length cells.now) }
    ensures nets { IfOk result (λ made. All (IsOfWidth out.new.nets width) made.items) }
    ensures value { IfOk result (λ made. Means out.old out.new (λ read. values_of read made.items
        ≡ after_writes (values_of read cells.now) (ports_write read ports.now stages.now))) }
    ensures makes { OnOk result (Makes out.old out.new) }
{
    let alloc = out.allocator();
    let order = write_order(alloc, stages)?;
    let mut next = Vec::from_slice(alloc, cells)?;
    for port in &order {
        next = written(out, ports[*port], &next, width)?;
    }
    Ok(next)
}
