/// How a stream goes on where bytes are missing: `Strict` waits for them, `Fast` hands over what follows the gap.
#[derive(Clone, Copy, Debug, PartialEq, Eq)]
pub enum Mode {
    Strict,
    Fast,
}
