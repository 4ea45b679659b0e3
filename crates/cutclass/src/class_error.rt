use crate::ClassRule;

/// Why a class was not added; either way it is handed back.
#[derive(Debug, Drop)]
pub enum ClassError {
    Memory(ClassRule),
    Full(ClassRule),
}
