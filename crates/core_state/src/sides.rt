//! The sides of endpoints.

ghost use Rattle.std.specs.Prelude.{◌≡◌};
ghost use Rattle.bind_model.specs.Machine.{other_side};

use wire_encoder::EndpointSide;

/// The other side.
pub fn other_side(side: EndpointSide) -> EndpointSide
    ensures { result ≡ other_side side }
{
    match side {
        EndpointSide::Remote => EndpointSide::Receiver,
        EndpointSide::Receiver => EndpointSide::Remote,
    }
}
