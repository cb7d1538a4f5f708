//! The answer of each subcommand.
mod check;
mod drop;
mod explain;
mod holdings;
mod isin;
mod migrate;
mod play;
mod read;
mod report;
mod serve;
mod trial;

pub use check::answer_check;
pub use drop::{Folders, take_folder};
pub use explain::answer_explain;
pub use holdings::report_desk;
pub use isin::answer_isin;
pub use migrate::{Paths, migrate_file};
pub use play::{answer_play, play_desk};
pub use read::answer_read;
pub use report::{Shown, answer_overview, show_on_both};
pub use serve::{answer_serve, serve_desk};
pub use trial::{Trial, try_on_both};
