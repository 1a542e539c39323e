use normal_atoms::Atom;

/// What some atoms say of the other names where one name may have any value: that there is no such value, or these atoms; or it is not
/// told.
#[derive(Debug, Drop)]
pub enum Shadow {
    Never,
    Atoms(Vec<Atom>),
    Unknown,
}
