// The replay of a story.
use crate::answers::{Answer, ReadingAnswer, RowAnswer, SLIP, SlipAnswer, TraceAnswer};
use crate::call::Call;
use crate::figure::Figure;
use crate::sheets::Sheet;
use crate::stop::{Stop, expect};
use crate::stream::Stream;
use crate::words::Words;
use arithmetic::Arithmetic;
use figures::{Trace, reading};
use plan_slips::write_plan_slip;

// The places of a sheet.
const PLACES: u32 = 32;

// The figures of every placed branch, ascending.
fn expect_rows<N: Arithmetic + Figure>(stream: &mut Stream, sheet: &Sheet<N>) -> Result<(), Stop> {
    for number in 0..PLACES {
        if let Some(look) = sheet.plan.look(sheet.rows(), number) {
            let (current, voltage) = (look.current, look.voltage);
            expect(
                stream,
                RowAnswer {
                    number,
                    current,
                    voltage,
                },
            )?;
        }
    }
    Ok(())
}

// One call and its answer. Tells whether it was a granted step: no value goes with that, since the sheet has the figures.
fn replay_call<N: Arithmetic + Figure>(
    stream: &mut Stream,
    sheet: &mut Sheet<N>,
) -> Result<bool, Stop> {
    let line = stream.line().ok_or(Stop::Unreadable)?;
    let call = Call::read(line).ok_or(Stop::Unreadable)?;
    let is_step = call.deed.is_step();
    let answer = sheet.answer(call);
    expect(stream, Answer(answer))?;
    if is_step {
        expect_rows(stream, sheet)?;
    }
    Ok(is_step && answer.is_ok())
}

// Every call up to the line of the slip. After each the sheet is shown to `after`, with whether it was a granted step: it was
// tried to show it after granted steps alone, but a closure called under a branch leaves the loop's invariant unproved.
fn replay_calls<N: Arithmetic + Figure, F: FnMut(bool, &Sheet<N>)>(
    stream: &mut Stream,
    sheet: &mut Sheet<N>,
    mut after: F,
) -> Result<(), Stop>
    requires { F.IsAlwaysCallable after }
{
    // Counted by what is left, since no contract says that a line shortens it: that would be no plainer.
    for _ in 0..stream.left() {
        if stream.is_at(b"slip ") {
            break;
        }
        let is_granted_step = replay_call(stream, sheet)?;
        after(is_granted_step, sheet);
    }
    Ok(())
}

// After each granted step the trace takes the voltage of the traced place.
fn take(trace: &mut Trace, sheet: &Sheet<f64>, traced: u32) {
    if let Some(look) = sheet.plan.look(sheet.rows(), traced) {
        let _ = trace.take(look.voltage);
    }
}

// The slip of the plan, in an area that was not zero.
fn expect_slip<N>(stream: &mut Stream, sheet: &Sheet<N>) -> Result<(), Stop> {
    let mut bytes = [0xff; SLIP];
    let used = write_plan_slip(&mut bytes, &sheet.plan);
    expect(stream, SlipAnswer { bytes, used })
}

// The reading of every placed branch, ascending.
fn expect_readings(stream: &mut Stream, sheet: &Sheet<f64>) -> Result<(), Stop> {
    for number in 0..PLACES {
        if sheet.plan.at(number).is_some() {
            let reading = reading(&sheet.plan, sheet.rows(), number);
            expect(stream, ReadingAnswer { number, reading })?;
        }
    }
    Ok(())
}

fn replay_binary64(stream: &mut Stream, traced: u32) -> Result<(), Stop> {
    let mut sheet = Sheet::blank();
    let mut trace = Trace::fresh();
    replay_calls(stream, &mut sheet, |is_granted_step, sheet| {
        if is_granted_step {
            take(&mut trace, sheet, traced);
        }
    })?;
    expect_slip(stream, &sheet)?;
    expect_readings(stream, &sheet)?;
    expect(
        stream,
        TraceAnswer {
            number: traced,
            trace,
        },
    )
}

fn replay_residues(stream: &mut Stream) -> Result<(), Stop> {
    let mut sheet = Sheet::<u16>::blank();
    replay_calls(stream, &mut sheet, |_, _| {})?;
    expect_slip(stream, &sheet)
}

// The traced place of a story in binary64; none in remainders.
fn traced_place(line: &[u8]) -> Option<Option<u32>> {
    let mut words = Words::new(line);
    if words.word()? != b"story".as_slice() {
        return None;
    }
    let traced = match words.word()? {
        b"f64" => Some(words.number()?),
        b"res" => None,
        _ => return None,
    };
    words.end()?;
    Some(traced)
}

// A story, whose first line is read.
pub(crate) fn replay_story(stream: &mut Stream, line: &[u8]) -> Result<(), Stop> {
    match traced_place(line).ok_or(Stop::Unreadable)? {
        Some(traced) => replay_binary64(stream, traced),
        None => replay_residues(stream),
    }
}
