ghost use Rattle.std.specs.Prelude.{◌≡◌, OnOk};
ghost use Rattle.theory.specs.Encodings.{clauses};
ghost use Rattle.network.specs.Contents.{meaning};
ghost use Rattle.books.specs.Storing.{Stores, Holds};

use books::WordsRefusal;
use computed::ComputedBook;
use network::Network;
use theory::Encoding;

// The words are the caller's, by a rule of the project.
// Writes the clauses of a network as a stored book, and answers how many words it took.
pub fn write(
    network: &Network,
    encoding: Encoding,
    words: &mut [u32],
) -> Result<usize, WordsRefusal>
    ensures answer { Stores (clauses encoding (meaning network.now)) words.old words.new result }
    ensures book { OnOk result (Holds (clauses encoding (meaning network.now)) words.new) }
{
    let book = ComputedBook::new(network, encoding);
    books::store(&book, words)
}
