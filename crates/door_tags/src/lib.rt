// What C and Rust call to read a block within a line with its language tag looked at: told as an ordinary reading is.
#![tactic(auto)]

ghost use Rattle.std.specs.Prelude.{◌≡◌};
ghost use Rattle.door_shared.specs.Tells.{told_in};
ghost use Rattle.door_sets.specs.Sets.{mode_of};
ghost use Rattle.door_tags.specs.Tags.{tags_of, tags_paper, tagged_said};

use read_tags::Tags;

// 0 takes any language tag, any other number well-formed ones and the empty one.
pub fn tags_of(strict: u8) -> Tags
    ensures value { result ≡ tags_of strict }
    ensures result_value { tags_paper result ≡ tags_paper (tags_of strict) }
{
    if strict == 0 {
        return Tags::Any;
    }
    Tags::WellFormed
}

// Reads the block at a brace as `bridlesnow_read_attrs_at` does; where `strict` isn't 0, its language tag has to be empty or well-formed.
#[unsafe(no_mangle)]
pub extern "C" fn bridlesnow_read_attrs_at_tags(
    text: &[u8],
    place: usize,
    loose: u8,
    strict: u8,
    out: &mut [u8],
    told: &mut [usize],
) -> u8
    ensures value { result ≡ (tagged_said (tags_of strict) (mode_of loose) text.now place out.old).number }
    ensures out_after { out.new ≡ (tagged_said (tags_of strict) (mode_of loose) text.now place out.old).out }
    ensures told_after { told.new ≡ told_in told.old (tagged_said (tags_of strict) (mode_of loose) text.now place out.old).told }
{
    let mode = door_sets::mode_of(loose);
    let read = read_tags::read_attrs_at_tags(text, place, mode, tags_of(strict));
    door_sets::hand_read(text, read, out, told)
}
