//! Which line is due after those before it.
ghost use Rattle.std.specs.Prelude.{◌≡◌, ◌==◌};
ghost use Rattle.ap_vr.specs.Places as places;

use crate::line::Line;

/// What part of a module is due.
#[derive(Clone, Copy, Debug, PartialEq, Eq)]
pub(crate) enum Part {
    /// The first line of a module, or the end of the text.
    Start,
    /// The clock.
    Clock,
    /// The reset.
    Reset,
    /// A port.
    Ports,
    /// The end of the ports.
    Close,
    /// Wires, and all that may follow them.
    Wires,
    /// Registers, and all that may follow them.
    Regs,
    /// Assigns, and all that may follow them.
    Assigns,
    /// What drives registers, and all that may follow it.
    Nexts,
    /// Instances, and the end of the module.
    Instances,
}

impl Part {
    /// The number of the part, in the order in which they stand.
    fn number(self) -> u32
        ensures { result ≡ places.number self }
    {
        match self {
            Part::Start => 0,
            Part::Clock => 1,
            Part::Reset => 2,
            Part::Ports => 3,
            Part::Close => 4,
            Part::Wires => 5,
            Part::Regs => 6,
            Part::Assigns => 7,
            Part::Nexts => 8,
            Part::Instances => 9,
        }
    }

    /// Whether a module begins here, or the text ends.
    pub(crate) fn is_start(self) -> bool
        ensures { result ≡ (places.number self == 0) }
    {
        self.number() == 0
    }

    /// Whether the line is due here, in a module that is `top` or another one.
    pub(crate) fn is_due(self, top: bool, line: &Line) -> bool
        ensures { result ≡ places.is_due self top line.now }
    {
        let at = self.number();
        match line {
            Line::Module(_) => at == 0,
            Line::Clock => at == 1,
            Line::Reset => at == 2,
            Line::Port { .. } => at == 3,
            Line::Close => at == 4,
            Line::Wire(_) => at == 5,
            Line::Reg(_) => 5 <= at && at <= 6,
            Line::Assign(_) => 5 <= at && at <= 7,
            Line::Always(_) => 5 <= at && at <= 8,
            Line::Instance(_) => 5 <= at && top,
            Line::End => 5 <= at,
        }
    }

    /// The part that is due after a line.
    pub(crate) fn after(line: &Line) -> Part
        ensures { result ≡ places.part_after line.now }
    {
        match line {
            Line::Module(_) => Part::Clock,
            Line::Clock => Part::Reset,
            Line::Reset => Part::Ports,
            Line::Port { more, .. } => { if *more { Part::Ports } else { Part::Close } }
            Line::Close | Line::Wire(_) => Part::Wires,
            Line::Reg(_) => Part::Regs,
            Line::Assign(_) => Part::Assigns,
            Line::Always(_) => Part::Nexts,
            Line::Instance(_) => Part::Instances,
            Line::End => Part::Start,
        }
    }
}
