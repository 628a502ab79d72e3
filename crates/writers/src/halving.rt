ghost use Rattle.std.specs.Prelude.{◌≡◌, OnOk};
ghost use Rattle.network.specs.Contents.{meaning};
ghost use Rattle.theory.specs.declared.Side.TheVariants.{Lower, Higher};
ghost use Rattle.books.specs.Storing.{Holds};
ghost use Rattle.computed.specs.Scores.{half_at};
ghost use Rattle.writers.specs.Halved.{Halved};

use books::HalvesRefusal;
use network::Network;

// The words are the caller's, by a rule of the project.
// Writes the two halves of a table, each as a stored book, and answers how many words each took.
pub fn write_halves(
    network: &Network,
    table: usize,
    low: &mut [u32],
    high: &mut [u32],
) -> Result<(usize, usize), HalvesRefusal>
    ensures answer { Halved (meaning network.now) table low.old low.new high.old high.new result }
    ensures books { OnOk result (Holds (half_at (meaning network.now) Lower table) low.new × Holds (half_at (meaning network.now) Higher table) high.new) }
{
    let (lower, higher) = computed::table_halves(network, table)?;
    let taken = books::store_both(&lower, &higher, low, high)?;
    Ok(taken)
}
