// The printed key of a card file, as text. `printed_key` prints the tree, loops and cuts of its circuit, and `whole_key`
// the readings and the remainders after one time step too; or the refusals that stand in their place. `read_circuit`
// answers the circuit itself.
#![tactic(auto)]

ghost use Rattle.std.specs.Prelude.{◌≡◌, ◌<◌, length, IfOk, string_bytes, codes};
ghost use Rattle.printed_key.specs.Key.{Blocks, circuit_tree, key_blocks, key_text, lines_by, lines_read, network_text, tree_read};
ghost use Rattle.printed_key.specs.Text.{Adds, text_of};
ghost use Rattle.printed_key.specs.declared.circuit.Circuit.{Circuit};

mod card_sheet;
mod circuit;
mod network;
mod readings;
mod residues;
mod stop;
mod telling;
mod words;

pub use card_sheet::CardSheet;
use card_sheet::read_sheet;
pub use circuit::Circuit;
use network::push_network;
use readings::push_readings;
use residues::push_residues;
use sheet::Refusal;
use std::alloc::{AllocError, Global};
pub use stop::Stop;
pub use telling::keys_tell;
use topology::tree;

// The longest input, in bytes.
pub const LONGEST: usize = 4096;

// Room for the text of a key of 32 branches, as a rule; a longer text grows.
const ROOM: usize = 2048;

// The circuit of a card file, or what stands in its way.
pub fn read_circuit(input: &[u8]) -> Result<Circuit, Stop>
    ensures lines { (blocks : Blocks) → lines_by blocks input.now ≡ lines_read blocks result }
    ensures tree { tree_read result ≡ circuit_tree input.now }
{
    if input.len() > LONGEST {
        return Err(Stop::Refused(Refusal::InputTooLong));
    }
    let sheet = read_sheet(input)?;
    let tree = tree(&sheet.plan)?;
    Ok(Circuit { sheet, tree })
}

// The text of a key: what the closure pushes of the circuit, or what stands in its way.
fn text_by<F: FnOnce(&mut String, Circuit) -> Result<(), AllocError>>(
    heap: Global,
    input: &[u8],
    push_blocks: F,
) -> Result<String, AllocError>
    requires { F.IsAlwaysCallable push_blocks }
    ensures { (blocks : Blocks) → ((before after : _) (c : Circuit) (r : _) → F.post push_blocks before c r after → Adds r (string_bytes before.now) (string_bytes after.now) (text_of (blocks (record { plan = c.sheet.plan; rows = c.sheet.rows }) c.tree))) → IfOk result (λ t. string_bytes t ≡ text_of (lines_by blocks input.now)) }
{
    let mut text = String::with_capacity(heap, ROOM)?;
    match read_circuit(input) {
        Ok(circuit) => push_blocks(&mut text, circuit)?,
        Err(stop) => writeln!(text, "{stop}")?,
    }
    Ok(text)
}

// The blocks of a whole key.
fn push_key(text: &mut String, circuit: Circuit, input: &[u8]) -> Result<(), AllocError>
    ensures { Adds result (string_bytes text.old) (string_bytes text.new) (text_of (key_blocks input.now (record { plan = circuit.sheet.plan; rows = circuit.sheet.rows }) circuit.tree)) }
{
    let framed = circuit.framed();
    let mut rows = circuit.sheet.rows;
    push_network(text, &framed)?;
    push_readings(text, &framed, &mut rows)?;
    push_residues(text, input)
}

// The tree, loops and cuts of a card file. The only error is want of memory: every refusal is a line of the text.
pub fn printed_key(heap: Global, input: &[u8]) -> Result<String, AllocError>
    ensures text { IfOk result (λ t. string_bytes t ≡ network_text input.now) }
    ensures too_long { 4096 < length input.now → IfOk result (λ t. string_bytes t ≡ codes "refused 25\n") }
{
    text_by(
        heap,
        input,
        |text, circuit| push_network(text, &circuit.framed()),
    )
}

// The same with the readings and the remainders.
pub fn whole_key(heap: Global, input: &[u8]) -> Result<String, AllocError>
    ensures { IfOk result (λ t. string_bytes t ≡ key_text input.now) }
{
    text_by(heap, input, |text, circuit| push_key(text, circuit, input))
}
