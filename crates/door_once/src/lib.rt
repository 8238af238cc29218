// What C and Rust call to read a block within a line in one pass: told as by the first reader.
#![tactic(auto)]

ghost use Rattle.std.specs.Prelude.{◌≡◌};
ghost use Rattle.door_shared.specs.Tells.{told_in};
ghost use Rattle.door_sets.specs.Sets.{mode_of};
ghost use Rattle.door_tags.specs.Tags.{tags_of, tagged_said};

// Reads the block at a brace, in one walk over its bytes, and tells just what `bridlesnow_read_attrs_at_tags` does.
#[unsafe(no_mangle)]
pub extern "C" fn bridlesnow_read_attrs_once(
    text: &[u8],
    place: usize,
    loose: u8,
    strict: u8,
    out: &mut [u8],
    told: &mut [usize],
) -> u8
    ensures value { result ≡ (tagged_said (tags_of strict) (mode_of loose) text.now place out.old).number }
    ensures out_after { out.new ≡ (tagged_said (tags_of strict) (mode_of loose) text.now place out.old).out }
    ensures told_after { told.new ≡ told_in told.old (tagged_said (tags_of strict) (mode_of loose) text.now place out.old).told }
{
    let mode = door_sets::mode_of(loose);
    let read = read_once::read_attrs_once_with(text, place, mode, door_tags::tags_of(strict));
    door_sets::hand_read(text, read, out, told)
}
