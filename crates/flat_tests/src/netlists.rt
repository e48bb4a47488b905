//! Texts of netlists, and what is said of them once they are read back.
use ap_flat::{FlatFault, flatten};
use ap_net::NoMemory;
use ap_vr::read_back;
use std::alloc::Global;

/// A port's name, its width, and whether it is an output.
pub type PortRow = (&'static str, u32, bool);

/// What is said of a netlist's text.
#[derive(Clone, Copy, Debug, PartialEq, Eq)]
pub enum Said {
    /// It isn't read back.
    Unread,
    /// Its netlist is opened, or it isn't.
    Opened,
    Not(FlatFault),
}

pub fn said_of(alloc: Global, text: &str) -> Said {
    let Ok(net) = read_back(alloc, text.as_bytes()) else {
        return Said::Unread;
    };
    match flatten(alloc, &net) {
        Ok(_) => Said::Opened,
        Err(fault) => Said::Not(fault),
    }
}

/// The line of a port, after a comma.
fn port_line(alloc: Global, port: PortRow) -> Result<String, NoMemory> {
    let (name, width, output) = port;
    let way = if output { "output" } else { "input" };
    let high = width.saturating_sub(1);
    let line = format!(in alloc; ",\n  {way} [{high}:0] {name}")?;
    Ok(line)
}

/// The line that drives an output: by a port, if there is one, and else by 0.
fn driver_line(alloc: Global, port: PortRow, copied: Option<PortRow>) -> Result<String, NoMemory> {
    let (name, width, _) = port;
    match copied {
        Some((other, _, _)) => {
            let line = format!(in alloc; "  assign {name} = {other};\n")?;
            Ok(line)
        }
        None => {
            let line = format!(in alloc; "  assign {name} = {width}'d0;\n")?;
            Ok(line)
        }
    }
}

/// The port that the one of this number copies.
fn copied_by(ports: &[PortRow], copies: &[(usize, usize)], number: usize) -> Option<PortRow> {
    let copy = copies.iter().find(|copy| copy.0 == number)?;
    ports.get(copy.1).copied()
}

/// The text of the module `top` alone with these ports, where the first port of each pair is an output that copies the second.
pub fn text_with(
    alloc: Global,
    ports: &[PortRow],
    copies: &[(usize, usize)],
) -> Result<String, NoMemory> {
    let mut text = String::from_str(alloc, "module top (\n  input clk,\n  input rst")?;
    for port in ports {
        let line = port_line(alloc, *port)?;
        text.push_str(&line)?;
    }
    text.push_str("\n);\n")?;
    for (number, port) in ports.iter().enumerate() {
        if port.2 {
            let line = driver_line(alloc, *port, copied_by(ports, copies, number))?;
            text.push_str(&line)?;
        }
    }
    text.push_str("endmodule\n")?;
    Ok(text)
}
