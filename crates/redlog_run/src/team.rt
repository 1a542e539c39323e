/// What eliminations and grids are worked on with, a runtime that makes threads and what is passed before each piece that a thread works on;
/// and who is told of refusals.
#[derive(Drop)]
pub struct Team<'a, R, G, T> {
    pub rt: &'a R,
    pub gate: &'a G,
    pub teller: &'a T,
}
