//! The arguments behind the word that names a trial.

/// The number that the argument at a place behind the word is, the first place being 1, or a default if there is none. Returns `None`
/// if it is no number.
pub fn number(args: &[String], place: usize, default: u32) -> Option<u32> {
    match args.get(place) {
        Some(text) => text.as_str().parse::<u32>().ok(),
        None => Some(default),
    }
}
