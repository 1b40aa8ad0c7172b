//! A derivation as vectors, one set a level, that keeps the answers to its questions: an edit asks those that are new, and takes
//! over the answers to those that are as before. The program derives in a forest; tests run the same scripts over both.
//!
//! The new levels are planned beside the old ones (`draft`, `revision`), whose symbols are paired with them by parent and count
//! (`pairing`, `tags`); each is asked whole (`round`) while the next one is made, cut where it has to be (`next`). The old ones are
//! only read, and answers move last (`taking`). So a refused edit leaves all as it was. `steps`, `given`, `revised` and `counted`
//! hold laws: of a step, of tags, of levels beside old ones, and of what is counted.
#![tactic(auto)]

mod ancestry;
mod asking;
mod beside;
mod counted;
mod draft;
mod found;
mod given;
mod level;
mod levels;
mod made;
mod moving;
mod next;
mod numbers;
mod origin;
mod pairing;
mod places;
mod plan;
mod release;
mod revised;
mod revision;
mod round;
mod steps;
mod tags;
mod taking;

pub use ancestry::Ancestry;
pub use beside::Beside;
pub use counted::{
    law_of_counts, law_of_found_levels, law_of_keys, law_of_moves, law_of_slots, law_of_visits,
};
pub use given::{law_of_given_tags, law_of_mates};
pub use level::Level;
pub use levels::Levels;
pub use moving::move_kept;
pub use next::NextLevel;
pub use origin::Origin;
pub use pairing::pair;
pub use release::release_all;
pub use revised::law_of_revisions;
pub use revision::Revision;
pub use round::{LevelAnswers, Round};
pub use steps::{law_of_meanings, law_of_next_levels, law_of_short_strings};
pub use tags::TagSupply;
pub use taking::take_over;
