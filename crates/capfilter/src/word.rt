ghost use Rattle.std.specs.Prelude.{◌≡◌};
ghost use Rattle.capfilter.specs.Words.{spelling, word};

/// The words of the language; the brackets are words too.
#[derive(Clone, Copy, Debug, PartialEq, Eq)]
pub(crate) enum Word {
    And,
    Or,
    Not,
    Open,
    Close,
    Tcp,
    Udp,
    Ip,
    Ip6,
    Source,
    Target,
    Host,
    Net,
    Port,
}

const WORDS: [Word; 14] = [
    Word::And,
    Word::Or,
    Word::Not,
    Word::Open,
    Word::Close,
    Word::Tcp,
    Word::Udp,
    Word::Ip,
    Word::Ip6,
    Word::Source,
    Word::Target,
    Word::Host,
    Word::Net,
    Word::Port,
];

impl Word {
    pub(crate) fn spelling(self) -> &'static str
        ensures { result.now ≡ spelling self }
    {
        match self {
            Word::And => "and",
            Word::Or => "or",
            Word::Not => "not",
            Word::Open => "(",
            Word::Close => ")",
            Word::Tcp => "tcp",
            Word::Udp => "udp",
            Word::Ip => "ip",
            Word::Ip6 => "ip6",
            Word::Source => "src",
            Word::Target => "dst",
            Word::Host => "host",
            Word::Net => "net",
            Word::Port => "port",
        }
    }

    /// The word that a token is.
    #[tactic(auto, unfolding(crate::specs::Words::word))]
    pub(crate) fn of(token: &[u8]) -> Option<Word>
        ensures { result ≡ word token.now }
    {
        WORDS
            .iter()
            .copied()
            .find(|w| w.spelling().as_bytes() == token)
    }
}
