//! Reads a line: its names and numbers are taken from their places, and the line that they make has to be spelled so.
ghost use Rattle.std.specs.Prelude.{◌≡◌, drop, Some, IfErr, IfOk};
ghost use Rattle.ap_vr.specs.Answers.{Answers, IsUnread};
ghost use Rattle.ap_vr.specs.LineForms as forms;
ghost use Rattle.ap_vr.specs.LineTexts.{IsAssign, IsConnection, IsDeclared, IsInstance, IsLine, IsNext, IsRight, IsSpelled};
ghost use Rattle.std.specs.List.{AllByRecursion as Each};
ghost use Rattle.ap_vr.specs.Pieces.{pieces_of, texts};

use crate::line::{Connection, Line, NamedAssign, NamedInstance, NamedNext, Right};
use crate::line_text::line_string;
use crate::piece::pieces;
use crate::token::{
    high_at, is, name_at, name_in, number_at, op_in, operand_at, operand_in, piece, value_at,
    width_at,
};
use crate::unread::Unread;
use ap_bits::Items;
use ap_net::cell::TwoOp;
use ap_net::net::{Net, Port};
use std::alloc::Global;

/// A right side with this sign between its operands.
#[tactic(auto, unfolding(crate::specs::LineForms::joined_in))]
fn joined(alloc: Global, sign: &[u8], pieces: &[&[u8]]) -> Result<Right, Unread>
    ensures found { Answers result (forms.joined_in sign.now (texts pieces.now)) }
    ensures rules { IfOk result IsRight }
{
    if is(sign, "?") {
        let s = operand_at(alloc, pieces, 0)?;
        let a = operand_at(alloc, pieces, 4)?;
        let b = operand_at(alloc, pieces, 8)?;
        return Ok(Right::Choose(s, a, b));
    }
    if is(sign, "=") {
        let a = operand_at(alloc, pieces, 0)?;
        let b = operand_at(alloc, pieces, 5)?;
        return Ok(Right::Two(TwoOp::Eq, a, b));
    }
    let op = op_in(sign)?;
    let a = operand_at(alloc, pieces, 0)?;
    let b = operand_at(alloc, pieces, 4)?;
    Ok(Right::Two(op, a, b))
}

/// A right side whose second piece is this one.
#[tactic(auto, unfolding(crate::specs::LineForms::plain_right_in))]
fn plain_right(alloc: Global, second: &[u8], pieces: &[&[u8]]) -> Result<Right, Unread>
    ensures found { Answers result (forms.plain_right_in second.now (texts pieces.now)) }
    ensures rules { IfOk result IsRight }
{
    if is(second, ";") {
        let a = operand_at(alloc, pieces, 0)?;
        return Ok(Right::Copy(a));
    }
    if is(second, "'") {
        let width = width_at(pieces, 0)?;
        let value = value_at(pieces, 2)?;
        return Ok(Right::Const { width, value });
    }
    if is(second, "[") {
        let a = operand_at(alloc, pieces, 0)?;
        let high = number_at(pieces, 2)?;
        let low = number_at(pieces, 4)?;
        return Ok(Right::Slice(a, high, low));
    }
    let sign = piece(pieces, 2)?;
    joined(alloc, sign, pieces)
}

/// A right side whose first piece is this one.
#[tactic(auto, unfolding(crate::specs::LineForms::right_by))]
fn right_by(alloc: Global, first: &[u8], pieces: &[&[u8]]) -> Result<Right, Unread>
    ensures found { Answers result (forms.right_by first.now (texts pieces.now)) }
    ensures rules { IfOk result IsRight }
{
    if is(first, "~") {
        let a = operand_at(alloc, pieces, 1)?;
        return Ok(Right::Not(a));
    }
    if is(first, "{") {
        let a = operand_at(alloc, pieces, 1)?;
        let b = operand_at(alloc, pieces, 4)?;
        return Ok(Right::Cat(a, b));
    }
    let second = piece(pieces, 1)?;
    plain_right(alloc, second, pieces)
}

/// The right side of an assign.
#[tactic(auto, unfolding(crate::specs::LineForms::right_in))]
fn right(alloc: Global, pieces: &[&[u8]]) -> Result<Right, Unread>
    ensures found { Answers result (forms.right_in (texts pieces.now)) }
    ensures rules { IfOk result IsRight }
{
    let first = piece(pieces, 0)?;
    right_by(alloc, first, pieces)
}

/// A connection.
fn join(alloc: Global, port: &[u8], net: &[u8]) -> Result<Connection, Unread>
    ensures found { Answers result (forms.join_in port.now net.now) }
    ensures rules { IfOk result IsConnection }
{
    let port = name_in(alloc, port)?;
    let net = operand_in(alloc, net)?;
    Ok(Connection { port, net })
}

/// The connections of an instance.
fn connections(alloc: Global, pieces: &[&[u8]]) -> Result<Items<Connection>, Unread>
    ensures found { Answers result (forms.connections_in (texts pieces.now)) }
    ensures rules { IfOk result (Each IsConnection) }
{
    let mut connections = Items::new(alloc);
    let mut rest = pieces;
    while let [_, _, _, port, _, net, _, more @ ..] = rest {
        connections.push(join(alloc, port, net)?)?;
        rest = more;
    }
    Ok(connections)
}

/// A wire or a register.
#[tactic(auto, unfolding(crate::specs::LineForms::declared_in))]
fn declared(alloc: Global, pieces: &[&[u8]]) -> Result<Net, Unread>
    ensures found { Answers result (forms.declared_in (texts pieces.now)) }
    ensures rules { IfOk result IsDeclared }
{
    let name = name_at(alloc, pieces, 10)?;
    let width = high_at(pieces, 5)?;
    Ok(Net { name, width })
}

/// A port.
#[tactic(auto, unfolding(crate::specs::LineForms::port_in))]
fn port(alloc: Global, output: bool, pieces: &[&[u8]]) -> Result<Line, Unread>
    ensures found { Answers result (forms.port_in output (texts pieces.now)) }
    ensures rules { IfOk result IsLine }
{
    let name = name_at(alloc, pieces, 10)?;
    let width = high_at(pieces, 5)?;
    let more = pieces.len() > 12;
    let port = Port {
        name,
        width,
        output,
    };
    Ok(Line::Port { port, more })
}

/// The clock, the reset, or an input, by the piece after the direction.
#[tactic(auto, unfolding(crate::specs::LineForms::input_by))]
fn input_by(alloc: Global, word: &[u8], pieces: &[&[u8]]) -> Result<Line, Unread>
    ensures found { Answers result (forms.input_by word.now (texts pieces.now)) }
    ensures rules { IfOk result IsLine }
{
    if is(word, "clk") {
        return Ok(Line::Clock);
    }
    if is(word, "rst") {
        return Ok(Line::Reset);
    }
    port(alloc, false, pieces)
}

/// The clock, the reset, or an input.
#[tactic(auto, unfolding(crate::specs::LineForms::input_in))]
fn input(alloc: Global, pieces: &[&[u8]]) -> Result<Line, Unread>
    ensures found { Answers result (forms.input_in (texts pieces.now)) }
    ensures rules { IfOk result IsLine }
{
    let word = piece(pieces, 4)?;
    input_by(alloc, word, pieces)
}

/// The pieces from this place on.
#[tactic(auto, using(crate::proofs::Afters::texts_after, crate::proofs::Afters::nothing_after))]
fn after<'a>(pieces: &'a [&'a [u8]], place: usize) -> &'a [&'a [u8]]
    ensures { texts result.now ≡ drop place (texts pieces.now) }
{
    if pieces.len() < place {
        return &[];
    }
    &pieces[place..]
}

/// An assign.
#[tactic(auto, unfolding(crate::specs::LineForms::assign_in))]
fn assign(alloc: Global, pieces: &[&[u8]]) -> Result<NamedAssign, Unread>
    ensures found { Answers result (forms.assign_in (texts pieces.now)) }
    ensures rules { IfOk result IsAssign }
{
    let to = name_at(alloc, pieces, 4)?;
    let right = right(alloc, after(pieces, 8))?;
    Ok(NamedAssign { to, right })
}

/// What drives a register.
#[tactic(auto, unfolding(crate::specs::LineForms::next_in))]
fn next(alloc: Global, pieces: &[&[u8]]) -> Result<NamedNext, Unread>
    ensures found { Answers result (forms.next_in (texts pieces.now)) }
    ensures rules { IfOk result IsNext }
{
    let register = name_at(alloc, pieces, 17)?;
    let width = width_at(pieces, 22)?;
    let reset = value_at(pieces, 24)?;
    let from = operand_at(alloc, pieces, 34)?;
    Ok(NamedNext {
        register,
        width,
        reset,
        from,
    })
}

/// An instance.
#[tactic(auto, unfolding(crate::specs::LineForms::instance_in))]
fn instance(alloc: Global, pieces: &[&[u8]]) -> Result<NamedInstance, Unread>
    ensures found { Answers result (forms.instance_in (texts pieces.now)) }
    ensures rules { IfOk result IsInstance }
{
    let module = name_at(alloc, pieces, 2)?;
    let name = name_at(alloc, pieces, 4)?;
    let connections = connections(alloc, after(pieces, 19))?;
    Ok(NamedInstance {
        name,
        module,
        connections,
    })
}

/// A line within a module, by its first word.
#[tactic(auto, unfolding(crate::specs::LineForms::inner_line_in))]
fn inner_line(alloc: Global, word: &[u8], pieces: &[&[u8]]) -> Result<Line, Unread>
    ensures found { Answers result (forms.inner_line_in word.now (texts pieces.now)) }
    ensures rules { IfOk result IsLine }
{
    if is(word, "input") {
        return input(alloc, pieces);
    }
    if is(word, "output") {
        return port(alloc, true, pieces);
    }
    if is(word, "wire") {
        return Ok(Line::Wire(declared(alloc, pieces)?));
    }
    if is(word, "reg") {
        return Ok(Line::Reg(declared(alloc, pieces)?));
    }
    if is(word, "assign") {
        return Ok(Line::Assign(assign(alloc, pieces)?));
    }
    if is(word, "always") {
        return Ok(Line::Always(next(alloc, pieces)?));
    }
    Ok(Line::Instance(instance(alloc, pieces)?))
}

/// A line by its first piece.
#[tactic(auto, unfolding(crate::specs::LineForms::line_by))]
fn line_by(alloc: Global, first: &[u8], pieces: &[&[u8]]) -> Result<Line, Unread>
    ensures found { Answers result (forms.line_by first.now (texts pieces.now)) }
    ensures rules { IfOk result IsLine }
{
    if is(first, "module") {
        return Ok(Line::Module(name_at(alloc, pieces, 2)?));
    }
    if is(first, "endmodule") {
        return Ok(Line::End);
    }
    if is(first, ")") {
        return Ok(Line::Close);
    }
    let word = piece(pieces, 2)?;
    inner_line(alloc, word, pieces)
}

/// The line that pieces give.
#[tactic(auto, unfolding(crate::specs::LineForms::line_in))]
fn line_of(alloc: Global, pieces: &[&[u8]]) -> Result<Line, Unread>
    ensures found { Answers result (forms.line_in (texts pieces.now)) }
    ensures rules { IfOk result IsLine }
{
    let first = piece(pieces, 0)?;
    line_by(alloc, first, pieces)
}

/// The line that the pieces of these bytes give.
fn found(alloc: Global, bytes: &[u8]) -> Result<Line, Unread>
    ensures found { Answers result (forms.line_in (pieces_of bytes.now)) }
    ensures rules { IfOk result IsLine }
{
    let pieces = pieces(alloc, bytes)?;
    line_of(alloc, &pieces)
}

/// The line that was found, if the bytes are its text.
#[tactic(auto, using(crate::proofs::LineFound::other_line_found, crate::proofs::LineFound::spelled_line))]
fn confirmed(alloc: Global, bytes: &[u8], line: Line) -> Result<Line, Unread>
    requires found { forms.line_in (pieces_of bytes.now) ≡ Some line }
    requires rules { IsLine line }
    ensures ok { IfOk result (IsSpelled bytes.now) }
    ensures err { IfErr result (IsUnread bytes.now) }
{
    let text = line_string(alloc, &line)?;
    if !is(bytes, text.as_str()) {
        return Err(Unread::NoForm);
    }
    Ok(line)
}

/// The line that the bytes spell.
///
/// The names and numbers of a line are taken from their places. Whether the other bytes are those of
/// a line is seen by comparing all of them with the text of the line that was found.
#[tactic(auto, using(crate::proofs::LineFound::nothing_found))]
pub(crate) fn read_line(alloc: Global, bytes: &[u8]) -> Result<Line, Unread>
    ensures ok { IfOk result (IsSpelled bytes.now) }
    ensures err { IfErr result (IsUnread bytes.now) }
{
    match found(alloc, bytes) {
        Ok(line) => confirmed(alloc, bytes, line),
        Err(why) => Err(why),
    }
}
