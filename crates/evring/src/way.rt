/// A direction of a conversation: `Fore` is that of its first packet.
#[derive(Clone, Copy, Debug, PartialEq, Eq)]
pub enum Way {
    Fore,
    Back,
}
