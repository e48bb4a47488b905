//! The order in which the nets of an opened netlist are computed, found by following dependences from net to net.
ghost use Rattle.std.specs.Prelude.{◌≡◌, ◌≢◌, ◌<◌, ◌+◌, ◌++◌, ◌∷◌, [], ℕ, List, replicate, Err, Some, IfNone, IfOk, IfSome, None, OnOk, length, set, slice_get, ◌⊎◌};
ghost use Rattle.std.specs.List.{AllByRecursion as Each};
ghost use Rattle.ap_net.specs.declared.cell.Wire.{Wire};
ghost use Rattle.ap_net.specs.Cells.{operands};
ghost use Rattle.ap_net.specs.Pending.{Among};
ghost use Rattle.ap_flat.specs.Dependence.{IsLooped, IsOrder};
ghost use Rattle.ap_flat.specs.Drivers.{AreWithin, Reads, reads_of};
ghost use Rattle.ap_flat.specs.Searching.{EndsWith, IsSearch, IsUndone, StaysBegun, StaysDone, most_steps};
ghost use Rattle.ap_flat.specs.declared.driver.Driver.TheVariants as driver;
ghost use Rattle.ap_flat.specs.declared.order.Mark.TheVariants as mark;
ghost use Rattle.ap_flat.specs.declared.order.OrderFault.TheVariants as fault;

use crate::driver::Driver;
use ap_bits::NoMemory;
use ap_net::cell::Cell;
use std::alloc::Global;

/// Where the search is with a net.
#[derive(Clone, Copy, Debug, PartialEq, Eq)]
enum Mark {
    /// It hasn't come to the net.
    New,
    /// The net is on the path.
    Open,
    /// The net is in the order.
    Done,
}

/// Why there is no order.
#[derive(Clone, Copy, Debug, PartialEq, Eq)]
pub enum OrderFault {
    /// Some net depends on itself.
    Loop,
    /// Memory ran out.
    NoMemory,
}

impl From<NoMemory> for OrderFault {
    ghost from_gives = { λ _ given. given ≡ fault.NoMemory };

    fn from(_: NoMemory) -> OrderFault {
        OrderFault::NoMemory
    }
}

/// A search that follows dependences: the marks of all nets, the path on which each net depends on the next one, and the order
/// so far.
#[derive(Drop)]
struct Search {
    marks: Vec<Mark>,
    path: Vec<usize>,
    order: Vec<usize>,
}

/// A net among those that are read, by its number, where the search isn't done with it.
fn undone(marks: &[Mark], net: usize) -> Option<usize>
    requires { net < length marks.now }
    ensures some { IfSome result (λ n. (n ≡ net) × IsUndone marks.now n) }
    ensures none { IfNone result (slice_get marks.now net ≡ Some mark.Done) }
{
    match marks[net] {
        Mark::Done => None,
        Mark::New | Mark::Open => Some(net),
    }
}

/// Of these two, where there is one, the first.
fn first_of(first: Option<usize>, second: Option<usize>) -> Option<usize>
    ensures some { IfSome result (λ n. (first ≡ Some n) ⊎ (second ≡ Some n)) }
    ensures none { IfNone result ((first ≡ None) × (second ≡ None)) }
{
    match first {
        Some(net) => Some(net),
        None => second,
    }
}

/// One of the nets that a cell reads with which the search isn't done.
fn undone_operand(marks: &[Mark], cell: Cell) -> Option<usize>
    requires { Each (λ (o : Wire). o.number < length marks.now) (operands cell) }
    ensures some { IfSome result (λ m. Among (reads_of (driver.Equation cell)) m × IsUndone marks.now m) }
    ensures none { IfNone result
        (Each (λ m. slice_get marks.now m ≡ Some mark.Done) (reads_of (driver.Equation cell))) }
{
    match cell {
        Cell::Const(_) => None,
        Cell::Copy(a) | Cell::Not(a) | Cell::Slice(a, _, _) => undone(marks, a.number),
        Cell::Two(_, a, b) | Cell::Cat(a, b) => {
            first_of(undone(marks, a.number), undone(marks, b.number))
        }
        Cell::Choose(s, a, b) => {
            let first = first_of(undone(marks, s.number), undone(marks, a.number));
            first_of(first, undone(marks, b.number))
        }
    }
}

/// One of the nets that are read for a net with which the search isn't done.
fn undone_read(marks: &[Mark], driver: Driver) -> Option<usize>
    requires { Each (λ m. m < length marks.now) (reads_of driver) }
    ensures some { IfSome result (λ m. Among (reads_of driver) m × IsUndone marks.now m) }
    ensures none { IfNone result
        (Each (λ m. slice_get marks.now m ≡ Some mark.Done) (reads_of driver)) }
{
    match driver {
        Driver::Given => None,
        Driver::Looks(net) => undone(marks, net),
        Driver::Equation(cell) => undone_operand(marks, cell),
    }
}

impl Search {
    /// A search that hasn't begun, among so many nets.
    fn new(alloc: Global, count: usize) -> Result<Search, NoMemory>
        ensures marks { IfOk result (λ search. search.marks.items ≡ replicate count mark.New) }
        ensures path { IfOk result (λ search. search.path.items ≡ []) }
        ensures order { IfOk result (λ search. search.order.items ≡ []) }
    {
        let marks = vec![in alloc; Mark::New; count]?;
        Ok(Search {
            marks,
            path: Vec::new(alloc),
            order: Vec::new(alloc),
        })
    }

    /// The last net of the path.
    fn last(&self) -> Option<usize>
        ensures some { IfSome result (EndsWith self.now.path.items) }
        ensures none { IfNone result (self.now.path.items ≡ []) }
    {
        let count = self.path.len();
        if count == 0 {
            return None;
        }
        Some(self.path[count - 1])
    }

    /// Puts a net to which the search hasn't come at the end of the path.
    fn open(&mut self, net: usize) -> Result<(), NoMemory>
        requires { net < length self.old.marks.items }
        ensures marks { OnOk result (self.new.marks.items ≡ set self.old.marks.items net mark.Open) }
        ensures path { OnOk result (self.new.path.items ≡ self.old.path.items ++ net ∷ []) }
        ensures order { OnOk result (self.new.order.items ≡ self.old.order.items) }
    {
        self.path.push(net)?;
        self.marks[net] = Mark::Open;
        Ok(())
    }

    /// Puts the last net of the path at the end of the order.
    fn close(&mut self, net: usize) -> Result<(), NoMemory>
        requires { net < length self.old.marks.items }
        ensures marks { OnOk result (self.new.marks.items ≡ set self.old.marks.items net mark.Done) }
        ensures path { OnOk result ((rest : List ℕ)
            → self.old.path.items ≡ rest ++ net ∷ [] → self.new.path.items ≡ rest) }
        ensures order { OnOk result (self.new.order.items ≡ self.old.order.items ++ net ∷ []) }
    {
        self.order.push(net)?;
        self.marks[net] = Mark::Done;
        let _ = self.path.pop();
        Ok(())
    }

    /// Goes on from the last net of the path: to a net that it depends on, or back, where the search is done with all of those.
    fn step(&mut self, drivers: &[Driver], net: usize) -> Result<(), OrderFault>
        requires low { net < length drivers.now }
        requires long { length drivers.now ≡ length self.old.marks.items }
        requires declared { AreWithin drivers.now (length self.old.marks.items) }
        requires last { EndsWith self.old.path.items net }
        requires search { IsSearch (Reads drivers.now) self.old.marks.items self.old.path.items
            self.old.order.items }
        ensures long { OnOk result (length self.new.marks.items ≡ length self.old.marks.items) }
        ensures search { OnOk result (IsSearch (Reads drivers.now) self.new.marks.items
            self.new.path.items self.new.order.items) }
        ensures stays { OnOk result (StaysDone self.old.marks.items self.new.marks.items) }
        ensures begun { OnOk result (StaysBegun self.old.marks.items self.new.marks.items) }
        ensures smaller { OnOk result (most_steps self.new.marks.items self.new.path.items
            < most_steps self.old.marks.items self.old.path.items) }
        ensures looped { result ≡ Err fault.Loop → IsLooped (Reads drivers.now) }
    {
        let Some(read) = undone_read(&self.marks, drivers[net]) else {
            self.close(net)?;
            return Ok(());
        };
        match self.marks[read] {
            Mark::New => self.open(read)?,
            Mark::Open | Mark::Done => return Err(OrderFault::Loop),
        }
        Ok(())
    }

    /// Puts a net to which the search hasn't come in the order, after all on which it depends.
    fn visit(&mut self, drivers: &[Driver], root: usize) -> Result<(), OrderFault>
        requires declared { AreWithin drivers.now (length self.old.marks.items) }
        requires long { length drivers.now ≡ length self.old.marks.items }
        requires new { slice_get self.old.marks.items root ≡ Some mark.New }
        requires search { IsSearch (Reads drivers.now) self.old.marks.items self.old.path.items
            self.old.order.items }
        requires empty { self.old.path.items ≡ [] }
        ensures long { OnOk result (length self.new.marks.items ≡ length self.old.marks.items) }
        ensures search { OnOk result (IsSearch (Reads drivers.now) self.new.marks.items
            self.new.path.items self.new.order.items) }
        ensures empty { OnOk result (self.new.path.items ≡ []) }
        ensures done { OnOk result (slice_get self.new.marks.items root ≡ Some mark.Done) }
        ensures stays { OnOk result (StaysDone self.old.marks.items self.new.marks.items) }
        ensures looped { result ≡ Err fault.Loop → IsLooped (Reads drivers.now) }
    {
        self.open(root)?;
        'follow: while let Some(net) = self.last() {
            self.step(drivers, net)?;
        }
        Ok(())
    }
}

/// An order of all nets with these drivers, or that some net depends on itself.
pub(crate) fn order_of(alloc: Global, drivers: &[Driver]) -> Result<Vec<usize>, OrderFault>
    requires { AreWithin drivers.now (length drivers.now) }
    ensures order { IfOk result (λ order.
        IsOrder (Reads drivers.now) (length drivers.now) order.items) }
    ensures looped { result ≡ Err fault.Loop → IsLooped (Reads drivers.now) }
{
    let mut search = Search::new(alloc, drivers.len())?;
    for root in 0..drivers.len() {
        if let Mark::New = search.marks[root] {
            search.visit(drivers, root)?;
        }
    }
    Ok(search.order)
}
