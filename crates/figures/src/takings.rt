// Takings of voltages into a trace.
ghost use Rattle.std.specs.Prelude.{◌≡◌, ◌<◌, List, Float};
ghost use Rattle.sheet.specs.Refusals.{verdict};
ghost use Rattle.figures.specs.Traces.{fresh_trace, lesser, greater, with_taking, taken, more_granted, Took, Sums, after_all, granted_of};

use crate::trace::Trace;
use sheet::Refusal;

// A trace holds at most so many.
const MOST: u32 = 1_000_000;

// f64::min and f64::max may answer either zero for two of them; here the old one stays on a tie. One function for lesser
// and greater would be handed the comparison, which is all that either holds.
fn lesser_of(voltage: f64, old: f64) -> f64
    ensures { result ≡ lesser voltage old }
{
    if voltage < old { voltage } else { old }
}

fn greater_of(voltage: f64, old: f64) -> f64
    ensures { result ≡ greater voltage old }
{
    if old < voltage { voltage } else { old }
}

// The trace with one more voltage: the first is least, greatest and last.
fn with_taking(trace: Trace, voltage: f64) -> Trace
    requires { trace.count < 1_000_000 }
    ensures { result ≡ with_taking trace voltage }
{
    let count = trace.count + 1;
    if trace.count == 0 {
        return Trace {
            least: voltage,
            greatest: voltage,
            last: voltage,
            count,
        };
    }
    Trace {
        least: lesser_of(voltage, trace.least),
        greatest: greater_of(voltage, trace.greatest),
        last: voltage,
        count,
    }
}

impl Trace {
    // Nothing taken yet. After any takings the trace sums up those that were granted.
    pub fn fresh() -> Trace
        ensures value { result ≡ fresh_trace }
        ensures sums { (vs : List Float) → Sums (granted_of result vs) (after_all result vs) }
    {
        Trace {
            least: 0.0,
            greatest: 0.0,
            last: 0.0,
            count: 0,
        }
    }

    // Takes a voltage. Refused by 19 and 20.
    pub fn take(&mut self, voltage: f64) -> Result<(), Refusal>
        ensures does { Took self.old voltage (verdict result) self.new }
        ensures sums { (g : List Float) → Sums g self.old → Sums (more_granted (taken self.old voltage) g voltage) self.new }
    {
        if !voltage.is_finite() {
            return Err(Refusal::TraceNotFinite);
        }
        if self.count >= MOST {
            return Err(Refusal::TraceFull);
        }
        *self = with_taking(*self, voltage);
        Ok(())
    }

    pub fn least(&self) -> f64
        ensures { result ≡ self.now.least }
    {
        self.least
    }

    pub fn greatest(&self) -> f64
        ensures { result ≡ self.now.greatest }
    {
        self.greatest
    }

    pub fn last(&self) -> f64
        ensures { result ≡ self.now.last }
    {
        self.last
    }

    pub fn count(&self) -> u32
        ensures { result ≡ self.now.count }
    {
        self.count
    }
}
