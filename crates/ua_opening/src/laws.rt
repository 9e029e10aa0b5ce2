//! Laws of values, and of the message bodies that open and close a SecureChannel, each carried by a
//! function without a body.

ghost use Rattle.std.specs.Prelude.{◌≡◌, ℕ, ℤ, length};
ghost use Rattle.ua_builtin.specs.declared.date_time.DateTime.{DateTime};
ghost use Rattle.ua_opening.specs.Message.{message};
ghost use Rattle.ua_opening.specs.Plain.{open_request_of, open_response_of, close_request_of};
ghost use Rattle.ua_opening.specs.SecureChannel.{open_request, open_response, close_request};

/// The canonical bodies of an OpenSecureChannel request, of its good response and of a
/// CloseSecureChannel request have 53, 56 and 33 bytes, without nonces and with a null
/// AuthenticationToken.
pub fn bodies_of_the_channel_have_lengths()
    ensures request { (kind : ℤ) (time : DateTime) (handle lifetime : ℕ)
        → length ((message 446 open_request).canonical (open_request_of kind time handle lifetime)) ≡ 53 }
    ensures response { (time : DateTime) (handle channel token lifetime : ℕ)
        → length ((message 449 open_response).canonical (open_response_of time handle channel token lifetime)) ≡ 56 }
    ensures close { (time : DateTime) (handle : ℕ)
        → length ((message 452 close_request).canonical (close_request_of time handle)) ≡ 33 }
{}
