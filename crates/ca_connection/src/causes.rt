ghost use Rattle.std.specs.Prelude.{◌≡◌, ◌≢◌, ℕ, slice_get, Some};
ghost use Rattle.std.specs.List.{Contains};
ghost use Rattle.ca_connection.specs.Layout.{Direction, HasNumber};
ghost use Rattle.ca_connection.specs.Link.{Response, NakReason, Link, number_of};
ghost use Rattle.ca_connection.specs.Link.Response.{Nak};
ghost use Rattle.ca_connection.specs.Link.NakReason.{PsnSequenceError};
ghost use Rattle.ca_connection.specs.Moves.{Reached};
ghost use Rattle.ca_connection.specs.Once.{Fits};

/// Each response that was sent, however old, fits the request that has its number: so a requester never meets a response
/// that does not fit.
pub fn response_fits_its_request()
    ensures { (d : Direction) (l : Link) (k place : ℕ) (a : Response) → Reached d l
        → slice_get l.responses k ≡ Some (Some a)
        → HasNumber d place (number_of a) → Fits d place a }
{}

/// A NAK that was sent, other than a sequence error, has its rejection: of a packet of the request that has its number, with
/// its code.
pub fn nak_has_its_rejection()
    ensures { (d : Direction) (l : Link) (k place n : ℕ) (code : NakReason) → Reached d l
        → slice_get l.responses k ≡ Some (Some (Nak code n)) → code ≢ PsnSequenceError → HasNumber d place n
        → Contains l.rejections (record { number = n; place = place; code = code }) }
{}
