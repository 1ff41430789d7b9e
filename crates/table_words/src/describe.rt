// A table in lent words described for its owner: our ID, and each place's source and region. Assumes nothing of the
// words. It promises specs/TableDescribing.antt, table_description, of the table that they hold.
ghost use Rattle.std.specs.Prelude.{◌≡◌, ◌<◌, ◌+◌, ◌*◌, length};
ghost use Rattle.std.proofs.lemmas.List.Edits.{sets};
ghost use Rattle.table.specs.Reachable.{place};
ghost use Rattle.table_words.specs.TableWords.{table_of};
ghost use Rattle.table_words.specs.TableDescribing.{three, table_description};

// Stores the three words of a place.
fn put_three(out: &mut [u64], w: &[u64], k: usize)
    requires { (k < 16) × (length out.old ≡ 49) }
    ensures { out.new
        ≡ sets out.old (1 + 3 * k) (three (place (table_of w.now) k)) }
{
    let at = 1 + 3 * k;
    out[at] = crate::source_at(w, k) as u64;
    out[at + 1] = crate::first_at(w, k);
    out[at + 2] = crate::size_at(w, k);
}

// Describes the table that the words hold.
pub fn describe(w: &[u64]) -> [u64; 49]
    ensures { result ≡ table_description (table_of w.now) }
{
    let mut out = [0u64; 49];
    out[0] = crate::own(w) as u64;
    for k in 0..crate::PLACES {
        put_three(&mut out, w, k);
    }
    out
}
