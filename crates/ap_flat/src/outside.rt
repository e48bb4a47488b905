//! What the ports of a module `top` say of the outside of a processor.
ghost use Rattle.std.specs.Prelude.{◌≡◌, ◌≢◌, ◌↔◌, ◌<◌, ◌≤◌, ◌+◌, ◌*◌, ◌^◌, ◌++◌, ◌∷◌, [], ℕ, List, IsTrue, true, IfNone, IfOk, IfSome, MatchOption, Some, None, codes, drop, length, map, slice_get, take};
ghost use Rattle.std.specs.List.{AllByRecursion as Each};
ghost use Rattle.ap_net.specs.declared.net.Port.{Port};
ghost use Rattle.std.specs.Fmt.{decimal};
ghost use Rattle.ap_bits.specs.Names.{IsName};
ghost use Rattle.ap_image.specs.declared.shape.MemShape.{MemShape};
ghost use Rattle.ap_net.specs.Outside.{input_name, mem_ports, input_ports, group_ports, shape_of};
ghost use Rattle.ap_net.specs.Outside as outside;
ghost use Rattle.ap_flat.specs.Ports.{IsAddress, IsInPort, IsMem, IsGroup, IsStorage, IsFileGroup, IsGroupBy, HasNoUnderscore, AreDue, AreDueAfter, BeginsWith, group_port};
ghost use Rattle.ap_flat.specs.Dependence.{mem_port};
ghost use Rattle.ap_flat.specs.declared.outside.Storage.{Storage};

use crate::between::{between, name_between};
use ap_bits::{Items, Name, NoMemory};
use ap_image::{MemShape, Shape};
use ap_net::net::Port;
use ap_text::number;
use std::alloc::Global;
use std::marker::Model;

/// The most input ports of a description.
const MOST_INPUTS: usize = 8;

/// How many ports a memory has.
const MEM_PORTS: usize = 5;

/// The most data memories.
const MOST_MEMS: usize = 4;

/// An input port of the description, and its width in bits.
#[derive(Drop)]
pub struct InPort {
    pub name: Name,
    pub width: u32,
}

impl Model for InPort {
    ghost use Rattle.ap_net.specs.Outside.{InPort};

    ghost Value = { InPort };

    ghost view = { λ p. record { name = p.name; width = p.width } };
}

/// A write port of a file: its number, and the bits of an index.
#[derive(Drop)]
pub struct FilePort {
    pub number: u64,
    pub index: u32,
}

impl Model for FilePort {
    ghost use Rattle.ap_net.specs.Outside.{FilePort};

    ghost Value = { FilePort };

    ghost view = { λ p. record { number = p.number; index = p.index } };
}

/// A write group: the register, or the file with its port, and the bits of a value.
#[derive(Drop)]
pub struct Group {
    pub storage: Name,
    pub port: Option<FilePort>,
    pub width: u32,
}

impl Model for Group {
    ghost use Rattle.ap_net.specs.Outside.{Group};

    ghost Value = { Group };

    ghost view = { λ g. record { storage = g.storage; port = g.port; width = g.width } };
}

/// What the outside of a processor has: the shape of what it is run on, the names of its inputs, and its write groups.
#[derive(Drop)]
pub struct Outside {
    shape: Shape,
    inputs: Items<InPort>,
    groups: Items<Group>,
}

impl Model for Outside {
    ghost use Rattle.std.specs.Prelude.{◌≡◌, map};
    ghost use Rattle.ap_net.specs.Outside.{Outside, InPort};

    ghost Value = { Outside };

    ghost view = { λ o. record { address = o.shape.code_address; word = o.shape.code_width; inputs = o.inputs; mems = o.shape.mems; groups = o.groups } };

    ghost invariant = { λ o. o.shape.inputs ≡ map (λ (p : InPort). p.width) o.inputs };
}

/// Whether the port has this name, this width and this direction.
fn is_port(port: &Port, name: &str, width: u32, output: bool) -> bool
    ensures { IsTrue result
        ↔ (port.now ≡ record { name = name.now; width = width; output = output }) }
{
    port.name.as_str() == name && port.width == width && port.output == output
}

/// Whether the bits are those of an address of a memory, from 1 to 16.
fn is_address(bits: u32) -> bool
    ensures { IsTrue result ↔ IsAddress bits }
{
    1 <= bits && bits <= 16
}

/// The input port of the description that this port is, if it is one.
fn in_port(alloc: Global, port: &Port) -> Result<Option<InPort>, NoMemory>
    ensures some { IfOk result (λ found. IfSome found (λ p.
        IsInPort p × (port.now ≡ outside.input (input_name p) p.width))) }
    ensures none { IfOk result (λ found. IfNone found ((p : outside.InPort)
        → IsInPort p → port.now ≢ outside.input (input_name p) p.width)) }
{
    if port.output {
        return Ok(None);
    }
    let Some(name) = name_between(alloc, port.name.as_str().as_bytes(), b"p_", b"")? else {
        return Ok(None);
    };
    let width = port.width;
    Ok(Some(InPort { name, width }))
}

/// The input ports of the description with which these ports begin.
fn in_ports(alloc: Global, ports: &[Port]) -> Result<Items<InPort>, NoMemory>
    ensures split { IfOk result (λ inputs.
        ports.now ≡ input_ports inputs ++ drop (length inputs) ports.now) }
    ensures within { IfOk result (λ inputs. length inputs ≤ length ports.now) }
    ensures each { IfOk result (Each IsInPort) }
    ensures ends { IfOk result (λ inputs. (p : outside.InPort) → IsInPort p
        → BeginsWith (drop (length inputs) ports.now) (input_ports (p ∷ [])) → ⊥) }
{
    let mut inputs = Items::new(alloc);
    for port in ports {
        let Some(input) = in_port(alloc, port)? else {
            return Ok(inputs);
        };
        inputs.push(input)?;
    }
    Ok(inputs)
}

/// Whether the port is the one of a memory with this name, this width and this direction.
fn is_mem_port(
    alloc: Global,
    port: &Port,
    memory: &Name,
    what: &str,
    width: u32,
    output: bool,
) -> Result<bool, NoMemory>
    ensures { IfOk result (λ is. IsTrue is ↔ (port.now
        ≡ record { name = mem_port memory.now what.now; width = width; output = output })) }
{
    let memory = memory.as_str();
    let name = format!(in alloc; "m_{memory}_{what}")?;
    Ok(is_port(port, name.as_str(), width, output))
}

/// Whether the ports begin with those of a memory.
fn are_mem_ports(alloc: Global, mem: &MemShape, ports: &[Port]) -> Result<bool, NoMemory>
    requires { 5 ≤ length ports.now }
    ensures { IfOk result (λ are. IsTrue are ↔ BeginsWith ports.now (mem_ports (mem.now ∷ []))) }
{
    if !is_mem_port(alloc, &ports[0], &mem.name, "ra", mem.address, true)? {
        return Ok(false);
    }
    if !is_mem_port(alloc, &ports[1], &mem.name, "rd", mem.width, false)? {
        return Ok(false);
    }
    if !is_mem_port(alloc, &ports[2], &mem.name, "we", 1, true)? {
        return Ok(false);
    }
    if !is_mem_port(alloc, &ports[3], &mem.name, "wa", mem.address, true)? {
        return Ok(false);
    }
    let are = is_mem_port(alloc, &ports[4], &mem.name, "wd", mem.width, true)?;
    Ok(are)
}

/// The memory with whose ports these ports begin, if they do.
fn mem_at(alloc: Global, ports: &[Port]) -> Result<Option<MemShape>, NoMemory>
    ensures some { IfOk result (λ found. IfSome found (λ m.
        IsMem m × BeginsWith ports.now (mem_ports (m ∷ [])))) }
    ensures none { IfOk result (λ found. IfNone found ((m : MemShape)
        → IsMem m → BeginsWith ports.now (mem_ports (m ∷ [])) → ⊥)) }
{
    if ports.len() < MEM_PORTS {
        return Ok(None);
    }
    let address = ports[0].width;
    if !is_address(address) {
        return Ok(None);
    }
    let Some(name) = name_between(alloc, ports[0].name.as_str().as_bytes(), b"m_", b"_ra")? else {
        return Ok(None);
    };
    let width = ports[1].width;
    let mem = MemShape {
        name,
        address,
        width,
    };
    if !are_mem_ports(alloc, &mem, ports)? {
        return Ok(None);
    }
    Ok(Some(mem))
}

/// The memories with whose ports these ports begin.
fn mems_at(alloc: Global, ports: &[Port]) -> Result<Items<MemShape>, NoMemory>
    ensures split { IfOk result (λ mems.
        ports.now ≡ mem_ports mems ++ drop (5 * length mems) ports.now) }
    ensures within { IfOk result (λ mems. 5 * length mems ≤ length ports.now) }
    ensures each { IfOk result (Each IsMem) }
    ensures ends { IfOk result (λ mems. (m : MemShape) → IsMem m
        → BeginsWith (drop (5 * length mems) ports.now) (mem_ports (m ∷ [])) → ⊥) }
{
    let mut mems = Items::new(alloc);
    let mut rest = ports;
    'mems: while let Some(mem) = mem_at(alloc, rest)? {
        rest = &rest[MEM_PORTS..];
        mems.push(mem)?;
    }
    Ok(mems)
}

/// The value of a decimal number without leading zeros that is at most 2^64 - 1, and None for other text.
fn number_of(alloc: Global, digits: &[u8]) -> Result<Option<u64>, NoMemory>
    ensures some { IfOk result (λ found. IfSome found (λ n. digits.now ≡ decimal n)) }
    ensures none { IfOk result (λ found. IfNone found ((n : ℕ)
        → n < 2 ^ 64 → digits.now ≢ decimal n)) }
{
    let Ok(value) = number(digits) else {
        return Ok(None);
    };
    let text = value.to_string(alloc)?;
    if text.as_bytes() == digits {
        return Ok(Some(value));
    }
    Ok(None)
}

/// The register, or the file and the number of its port, by which the ports of a group are named.
#[derive(Drop)]
struct Storage {
    name: Name,
    port: Option<u64>,
}

/// The place of the first underscore.
fn underscore(text: &[u8]) -> Option<usize>
    ensures at { IfSome result (λ i. slice_get text.now i ≡ Some 95) }
    ensures first { IfSome result (λ i. HasNoUnderscore (take i text.now)) }
    ensures none { IfNone result (HasNoUnderscore text.now) }
{
    for i in 0..text.len() {
        if text[i] == b'_' {
            return Some(i);
        }
    }
    None
}

/// The file and its port of this name, the first underscore of which stands here, if it is one.
fn file_port_of(alloc: Global, text: &[u8], at: usize) -> Result<Option<Storage>, NoMemory>
    requires at { slice_get text.now at ≡ Some 95 }
    requires first { HasNoUnderscore (take at text.now) }
    ensures some { IfOk result (λ found. IfSome found (IsStorage text.now)) }
    ensures none { IfOk result (λ found. IfNone found ((s : Storage)
        → IsStorage text.now s → ⊥)) }
{
    let Some(name) = Name::parse(alloc, &text[..at])? else {
        return Ok(None);
    };
    let Some(number) = number_of(alloc, &text[at + 1..])? else {
        return Ok(None);
    };
    let port = Some(number);
    Ok(Some(Storage { name, port }))
}

/// The register, or the file and its port, of this name, if it is one.
fn storage_of(alloc: Global, text: &[u8]) -> Result<Option<Storage>, NoMemory>
    ensures some { IfOk result (λ found. IfSome found (IsStorage text.now)) }
    ensures none { IfOk result (λ found. IfNone found ((s : Storage)
        → IsStorage text.now s → ⊥)) }
{
    if let Some(at) = underscore(text) {
        let found = file_port_of(alloc, text, at)?;
        return Ok(found);
    }
    let Some(name) = Name::parse(alloc, text)? else {
        return Ok(None);
    };
    Ok(Some(Storage { name, port: None }))
}

/// Whether the port is the output of a group of this storage with this name.
fn is_group_port(
    alloc: Global,
    port: &Port,
    storage: &[u8],
    what: &str,
    width: u32,
) -> Result<bool, NoMemory>
    ensures { IfOk result (λ is. IsTrue is
        ↔ (port.now ≡ outside.output (group_port storage.now what.now) width)) }
{
    let mut name = Vec::from_slice(alloc, b"w_")?;
    name.extend_from_slice(storage)?;
    name.extend_from_slice(b"_")?;
    name.extend_from_slice(what.as_bytes())?;
    Ok(port.name.as_str().as_bytes() == name.as_slice() && port.width == width && port.output)
}

/// Whether these are the last ports of a group of a file's port.
fn are_file_ports(
    alloc: Global,
    storage: &[u8],
    index: &Port,
    value: &Port,
) -> Result<bool, NoMemory>
    ensures { IfOk result (λ are. IsTrue are
        ↔ ((index.now ≡ outside.output (group_port storage.now (codes "x")) index.now.width)
        × (value.now ≡ outside.output (group_port storage.now (codes "v")) value.now.width))) }
{
    if !is_group_port(alloc, index, storage, "x", index.width)? {
        return Ok(false);
    }
    let are = is_group_port(alloc, value, storage, "v", value.width)?;
    Ok(are)
}

/// The group with whose ports these ports begin, if they do.
fn group_at(alloc: Global, ports: &[Port]) -> Result<Option<Group>, NoMemory>
    ensures some { IfOk result (λ found. IfSome found (λ g.
        IsGroup g × BeginsWith ports.now (group_ports (g ∷ [])))) }
    ensures none { IfOk result (λ found. IfNone found ((g : outside.Group)
        → IsGroup g → BeginsWith ports.now (group_ports (g ∷ [])) → ⊥)) }
{
    let [enable, ..] = ports else {
        return Ok(None);
    };
    let Some(text) = between(enable.name.as_str().as_bytes(), b"w_", b"_e") else {
        return Ok(None);
    };
    let Some(storage) = storage_of(alloc, text)? else {
        return Ok(None);
    };
    if !is_enable(enable) {
        return Ok(None);
    }
    let found = group_of(alloc, text, storage, ports)?;
    Ok(found)
}

/// Whether the port is an output of one bit.
fn is_enable(port: &Port) -> bool
    ensures { IsTrue result ↔ ((port.now.output ≡ true) × (port.now.width ≡ 1)) }
{
    port.output && port.width == 1
}

/// The group of this storage, if the ports after the first of these are its.
fn group_of(
    alloc: Global,
    text: &[u8],
    storage: Storage,
    ports: &[Port],
) -> Result<Option<Group>, NoMemory>
    ensures some { IfOk result (λ found. IfSome found (λ g. (g.storage ≡ storage.name)
        × IsGroupBy text.now storage.port ports.now g)) }
    ensures none { IfOk result (λ found. IfNone found ((g : outside.Group)
        → IsGroupBy text.now storage.port ports.now g → ⊥)) }
{
    let Some(number) = storage.port else {
        let found = register_group(alloc, text, storage.name, ports)?;
        return Ok(found);
    };
    let found = file_group(alloc, text, storage.name, number, ports)?;
    Ok(found)
}

/// The group of this register, if the second of these ports is its value.
fn register_group(
    alloc: Global,
    text: &[u8],
    storage: Name,
    ports: &[Port],
) -> Result<Option<Group>, NoMemory>
    ensures some { IfOk result (λ found. IfSome found (λ g. (g.storage ≡ storage) × (g.port ≡ None)
        × (slice_get ports.now 1 ≡ Some (outside.output (group_port text.now (codes "v")) g.width)))) }
    ensures none { IfOk result (λ found. IfNone found ((width : ℕ)
        → slice_get ports.now 1 ≡ Some (outside.output (group_port text.now (codes "v")) width) → ⊥)) }
{
    let [_, value, ..] = ports else {
        return Ok(None);
    };
    let width = value.width;
    if !is_group_port(alloc, value, text, "v", width)? {
        return Ok(None);
    }
    Ok(Some(Group {
        storage,
        port: None,
        width,
    }))
}

/// The group of this file's port, if the second and the third of these ports are its index and value.
fn file_group(
    alloc: Global,
    text: &[u8],
    storage: Name,
    number: u64,
    ports: &[Port],
) -> Result<Option<Group>, NoMemory>
    ensures some { IfOk result (λ found. IfSome found (λ g. (g.storage ≡ storage)
        × IsFileGroup text.now number ports.now g)) }
    ensures none { IfOk result (λ found. IfNone found ((g : outside.Group)
        → IsFileGroup text.now number ports.now g → ⊥)) }
{
    let [_, index, value, ..] = ports else {
        return Ok(None);
    };
    if !are_file_ports(alloc, text, index, value)? {
        return Ok(None);
    }
    let port = Some(FilePort {
        number,
        index: index.width,
    });
    let width = value.width;
    Ok(Some(Group {
        storage,
        port,
        width,
    }))
}

/// How many ports a group has.
fn port_count(group: &Group) -> usize
    ensures { result ≡ length (group_ports (group.now ∷ [])) }
{
    if group.port.is_some() { 3 } else { 2 }
}

/// The groups whose ports these are, if they are those of groups.
fn groups_of(alloc: Global, ports: &[Port]) -> Result<Option<Items<Group>>, NoMemory>
    ensures some { IfOk result (λ found. IfSome found (λ groups.
        Each IsGroup groups × (ports.now ≡ group_ports groups))) }
    ensures none { IfOk result (λ found. IfNone found ((groups : List outside.Group)
        → Each IsGroup groups → ports.now ≢ group_ports groups)) }
{
    let mut groups = Items::new(alloc);
    let mut rest = ports;
    'groups: while !rest.is_empty() {
        let Some(group) = group_at(alloc, rest)? else {
            return Ok(None);
        };
        rest = &rest[port_count(&group)..];
        groups.push(group)?;
    }
    Ok(Some(groups))
}

/// The widths of inputs.
fn widths_of(alloc: Global, inputs: &[InPort]) -> Result<Items<u32>, NoMemory>
    ensures { IfOk result (λ widths. widths ≡ map (λ (p : outside.InPort). p.width) inputs.now) }
{
    let mut widths = Items::new(alloc);
    for input in inputs {
        widths.push(input.width)?;
    }
    Ok(widths)
}

/// Whether these are the outputs that tell the state of a cycle.
fn are_states(stall: &Port, kill: &Port) -> bool
    ensures { IsTrue result ↔ ((stall.now ≡ outside.output (codes "stall") 1)
        × (kill.now ≡ outside.output (codes "kill") 1)) }
{
    is_port(stall, "stall", 1, true) && is_port(kill, "kill", 1, true)
}

/// Whether a description may have so many inputs and memories.
fn are_few(inputs: usize, mems: usize) -> bool
    ensures { IsTrue result ↔ ((inputs ≤ 8) × (mems ≤ 4)) }
{
    inputs <= MOST_INPUTS && mems <= MOST_MEMS
}

/// The outside with a code memory of these bits, if these ports after those of the code memory and `mwait` are due to one.
fn after_head(
    alloc: Global,
    address: u32,
    word: u32,
    ports: &[Port],
) -> Result<Option<Outside>, NoMemory>
    requires { IsAddress address }
    ensures some { IfOk result (λ found. IfSome found (AreDueAfter address word ports.now)) }
    ensures none { IfOk result (λ found. IfNone found ((o : outside.Outside)
        → AreDueAfter address word ports.now o → ⊥)) }
{
    let inputs = in_ports(alloc, ports)?;
    let ports = &ports[inputs.len()..];
    let mems = mems_at(alloc, ports)?;
    let ports = &ports[MEM_PORTS * mems.len()..];
    let [stall, kill, rest @ ..] = ports else {
        return Ok(None);
    };
    if !are_states(stall, kill) {
        return Ok(None);
    }
    if !are_few(inputs.len(), mems.len()) {
        return Ok(None);
    }
    let Some(groups) = groups_of(alloc, rest)? else {
        return Ok(None);
    };
    let widths = widths_of(alloc, inputs.as_slice())?;
    let Some(shape) = Shape::checked(address, word, mems, widths) else {
        return Ok(None);
    };
    shape.rules();
    Ok(Some(Outside {
        shape,
        inputs,
        groups,
    }))
}

/// The outside to which these ports are due, if there is one.
pub(crate) fn outside_of(alloc: Global, ports: &[Port]) -> Result<Option<Outside>, NoMemory>
    ensures some { IfOk result (λ found. IfSome found (AreDue ports.now)) }
    ensures none { IfOk result (λ found. IfNone found ((o : outside.Outside)
        → AreDue ports.now o → ⊥)) }
{
    let [iaddr, idata, mwait, rest @ ..] = ports else {
        return Ok(None);
    };
    let is_head = is_port(iaddr, "iaddr", iaddr.width, true)
        && is_address(iaddr.width)
        && is_port(idata, "idata", idata.width, false)
        && is_port(mwait, "mwait", 1, false);
    if !is_head {
        return Ok(None);
    }
    after_head(alloc, iaddr.width, idata.width, rest)
}

impl Outside {
    /// The shape of what a processor with this outside is run on.
    pub fn shape(&self) -> &Shape
        ensures { result.now ≡ shape_of self.now }
    {
        &self.shape
    }

    /// The input ports of the description.
    pub fn inputs(&self) -> &[InPort]
        ensures { result.now ≡ self.now.inputs }
    {
        self.inputs.as_slice()
    }

    /// The write groups.
    pub fn groups(&self) -> &[Group]
        ensures { result.now ≡ self.now.groups }
    {
        self.groups.as_slice()
    }
}
