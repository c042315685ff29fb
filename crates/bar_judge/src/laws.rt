//! Laws of verdicts, of faults that are found, and of table files. These functions do nothing: what they ensure is a law.
ghost use Rattle.std.specs.Prelude.{◌≡◌, ℕ, ◌<◌, ◌^◌, List, Some, Ok, length, true};
ghost use Rattle.std.specs.List.{AllByRecursion, list_all};
ghost use Rattle.bar_session.specs.Sessions.{IsSession};
ghost use Rattle.bar_terms.specs.Table.{Lists, Table};
ghost use Rattle.bar_wire.specs.Datagram.{Datagram};
ghost use Rattle.bar_rules.specs.Judge.Verdict.{all_read, are_of_one_peer, fault_of, judged, verdict};
ghost use Rattle.bar_rules.specs.Member.{Session};
ghost use Rattle.bar_rules.specs.Values.{is_signed_by};
ghost use Rattle.bar_judge.specs.TableFile.{RoundList, list_after, lists_of, table_of, table_bytes};

use bar_wire::the_datagram_is_spelled;

/// Let datagrams be read from bytes, of one peer, and have accepted signatures. Then the verdict on the bytes is what is found of the
/// datagrams: the fault against their sender, or none.
pub fn verdicts_are_what_is_found()
    ensures { (s : Session) (table : Table) (evidence : List (List ℕ)) (ds : List Datagram) → all_read s evidence ≡ Some ds
        → are_of_one_peer ds ≡ true → list_all (is_signed_by s) ds ≡ true
        → verdict s table evidence ≡ judged s table ds (fault_of s table ds) }
{}

/// The length of bytes that give a list fits the two bytes of an entry.
pub fn manifests_fit_their_entries()
    ensures { (s : Session) (last : ℕ) (manifest : List ℕ) (list : RoundList) → IsSession s → list_after s last manifest ≡ Some list →
        length manifest < 2 ^ 16 }
{
    the_datagram_is_spelled();
}

/// A table file that is written is read back.
pub fn written_tables_are_read_back()
    // for a session
    ensures session { (s : Session) (manifests : List (List ℕ)) (lists : Lists) → IsSession s → lists_of s 0 manifests ≡ Some lists →
        table_of s (table_bytes manifests) ≡ Ok lists }
    // for any lists, if the lengths fit
    ensures any { (s : Session) (manifests : List (List ℕ)) (lists : Lists) → lists_of s 0 manifests ≡ Some lists →
        AllByRecursion (λ m. length m < 2 ^ 16) manifests → table_of s (table_bytes manifests) ≡ Ok lists }
{
    manifests_fit_their_entries();
}
