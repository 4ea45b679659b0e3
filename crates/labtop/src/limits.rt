//! What a drill takes so far, and the words. The limits of a capture are pcapfile's, those of a settings text scapconf's, those of
//! a capture that is made pcapgen's.

/// The most bytes of a capture that is drilled yet.
pub(crate) const MOST_BUILT: usize = 16_777_216;

/// The most decimal digits of a number among the words.
pub(crate) const MOST_DIGITS: usize = 20;
