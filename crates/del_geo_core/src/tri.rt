// Triangles, of points in the plane or in space. Each is made of an array beside its point: an impl for both would take an array of a type parameter, whose size each caller would owe.
#[derive(Clone, Copy)]
pub struct Tri<P> {
    pub p0: P,
    pub p1: P,
    pub p2: P,
}
