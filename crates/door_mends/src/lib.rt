// What C and Rust call to mend an index beside a sheet after an edit, in lent memory: the number of its refusal, 0 where nothing is refused.
#![tactic(auto)]

ghost use Rattle.std.specs.Prelude.{◌≡◌, length};
ghost use Rattle.base_lists.specs.Lists.{over};
ghost use Rattle.sheet_blocks.specs.Sheets.{join_behind};
ghost use Rattle.sheet_index.specs.Building.{built_paper};
ghost use Rattle.sheet_mends.specs.Mending.{mended_of, mended_text, mended_table, mend_tries};
ghost use Rattle.door_shared.specs.Tells.{told_in};
ghost use Rattle.door_indexes.specs.Indexes.{built_told};

// Mends the index of a sheet after lines a to b were replaced: that of the new text, and its rows. Tells how many records it has, and how many bytes.
#[unsafe(no_mangle)]
pub extern "C" fn bridlesnow_index_mend<'a>(
    old: &'a [u8],
    new: &'a [u8],
    a: usize,
    b: usize,
    index: &'a [u8],
    join: &mut [u8],
    table: &mut [usize],
    out: &mut [u8],
    told: &mut [usize],
) -> u8
    ensures value { result ≡ (built_paper (mended_of old.now new.now a b index.now (length join.old) (length table.old) (length out.old))).number }
    ensures join_after { join.new ≡ join_behind join.old (mend_tries old.now new.now a b index.now (length join.old)) }
    ensures table_after { table.new ≡ over (mended_table old.now new.now a b index.now (length join.old) (length table.old) (length out.old)) table.old }
    ensures out_after { out.new ≡ over (mended_text old.now new.now a b index.now (length join.old) (length table.old) (length out.old)) out.old }
    ensures told_after { told.new ≡ told_in told.old (built_told (mended_of old.now new.now a b index.now (length join.old) (length table.old) (length out.old))) }
{
    let built = sheet_mends::mend_index(old, new, a, b, index, join, table, out);
    door_indexes::say_built(built, told)
}
