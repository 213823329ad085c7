// What a transaction came to.
use parts::Ran;
use scripts::PART_LIMIT;
use short_lists::ShortList;

/// What each part told, in the script's order, and whether all stores committed. The parts told it
/// either way, so the end is a flag beside them and no enum round them. The script is the caller's, who
/// joins the two by place.
#[derive(Clone, Copy)]
pub struct Outcome {
    pub parts: ShortList<Ran, PART_LIMIT>,
    pub committed: bool,
}
