// The lanes of a word: which of them a post may have (rules 3.4, 3.5).
#![tactic(auto)]

ghost use Rattle.std.specs.Prelude.{◌≡◌, ◌≤◌};
ghost use Rattle.fabric_lanes.specs.Lanes.{all_lanes, legal_lanes, post_lanes};

// The mask of the lowest lanes, as many as the width (rule 3.5). That a width is at most 8 stays a `requires` here and below: it is a
// number of a master's record, and a type for it would be made at each call.
pub fn all_lanes(width: u32) -> u32
    requires { width ≤ 8 }
    ensures { result ≡ all_lanes width }
{
    (1 << width) - 1
}

// Whether a master of this width may enable these lanes (rule 3.4). Their count is a power of two, and the lowest lane a multiple
// of it, where each has no bit below the count's own.
pub fn legal_lanes(width: u32, lanes: u32) -> bool
    requires { width ≤ 8 }
    ensures { result ≡ legal_lanes width lanes }
{
    if (lanes == 0) | (255 < lanes) {
        return false;
    }
    let count = u32::count_ones(lanes);
    let low = u32::trailing_zeros(lanes);
    // adjacent ones, moved down to lane 0, are the lowest lanes
    let run = lanes >> low;
    let all = all_lanes(count);
    let below = count - 1;
    (run == all) & (count & below == 0) & (low & below == 0) & (low + count <= width)
}

// Whether a master of this width may post these lanes with so many beats (rules 3.4, 3.5). The lanes are legal, and of a burst all of
// the width: each mask is counted, and nothing is decided before that.
pub fn post_lanes(width: u32, lanes: u32, beats: u32) -> bool
    requires { width ≤ 8 }
    ensures { result ≡ post_lanes width lanes beats }
{
    let legal = legal_lanes(width, lanes);
    let all = all_lanes(width);
    legal & ((beats <= 1) | (lanes == all))
}
