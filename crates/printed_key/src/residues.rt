// The block of remainders: currents and voltages modulo 8,191 after one step, from the cards read anew.
ghost use Rattle.std.specs.Prelude.{◌≡◌, map, string_bytes};
ghost use Rattle.arithmetic.specs.Residues.{residue};
ghost use Rattle.printed_key.specs.Blocks.{remainder_lines, residue_lines, residue_lines_read};
ghost use Rattle.printed_key.specs.Text.{Adds, text_of};
ghost use Rattle.sheet.specs.Meanings.{meant_sheet};

use crate::card_sheet::{CardSheet, read_sheet};
use crate::stop::Stop;
use crate::words::place;
use arithmetic::{Arithmetic, remainder_of};
use std::alloc::AllocError;
use stepping::step;

// The cards in remainders after one step of length 1. Tried: one function with that of the readings; a work area of a generic
// arithmetic asks that its size fit, and nothing bounds it.
fn stepped_residues(input: &[u8]) -> Result<CardSheet<u16>, Stop>
    ensures { residue_lines input.now ≡ residue_lines_read result }
{
    let mut sheet = read_sheet::<u16>(input)?;
    let mut area = [<u16 as Arithmetic>::zero(); 304];
    step(
        &sheet.plan,
        &mut sheet.rows,
        <u16 as Arithmetic>::one(),
        &mut area,
    )?;
    Ok(sheet)
}

// `res 0 8189 6` for each branch.
fn push_remainders(text: &mut String, sheet: &CardSheet<u16>) -> Result<(), AllocError>
    ensures { Adds result (string_bytes text.old) (string_bytes text.new) (text_of (remainder_lines (meant_sheet residue (record { plan = sheet.now.plan; rows = sheet.now.rows })))) }
{
    for k in 0..32 {
        if let Some(look) = sheet.plan.look(&sheet.rows, k) {
            let current = remainder_of(look.current);
            let voltage = remainder_of(look.voltage);
            writeln!(text, "res{} {current} {voltage}", place(k))?;
        }
    }
    Ok(())
}

// A line for each branch, or what stands in their way.
pub(crate) fn push_residues(text: &mut String, input: &[u8]) -> Result<(), AllocError>
    ensures { Adds result (string_bytes text.old) (string_bytes text.new) (text_of (residue_lines input.now)) }
{
    match stepped_residues(input) {
        Ok(sheet) => push_remainders(text, &sheet),
        Err(stop) => writeln!(text, "{stop}"),
    }
}
