//! Texts that one coroutine sends to another.
ghost use Rattle.std.specs.Prelude.{◌≡◌, [], ◌∷◌, length, IfSome};
ghost use Rattle.parcel_channel.specs.Hubs.{IsOf, IsFirst, SamePass, seen_by};

use parcel_channel::{ParcelHub, ParcelPass, ParcelSent};

/// Sends a text, or gives it back if the channel is closed or full for good.
pub(crate) fn send_text(
    hub: &ParcelHub<String>,
    pass: &mut ParcelPass<String>,
    text: String,
) -> Option<String>
    requires of { IsOf hub.now pass.old }
    ensures of { IsOf hub.now pass.new }
    ensures same { SamePass pass.old pass.new }
    ensures back { IfSome result (λ back. back ≡ text) }
{
    match hub.send(pass, text) {
        ParcelSent::Sent(_, _) => None,
        ParcelSent::Waits(_, _) => None,
        ParcelSent::Lost => None,
        ParcelSent::Closed(back, _) => Some(back),
        ParcelSent::Spent(back) => Some(back),
        ParcelSent::NoParcel(back) => Some(back),
    }
}

/// The texts that nobody received, once the sender has ended.
pub(crate) fn left_over(
    hub: ParcelHub<String>,
    mut receiver: ParcelPass<String>,
    sender: ParcelPass<String>,
) -> Vec<Option<String>>
    requires receiver { IsOf hub receiver × IsFirst receiver }
    requires sender { IsOf hub sender }
    requires given { (seen_by receiver).given ≡ 1 ∷ 0 ∷ [] }
    requires tags { ((seen_by receiver).tags ≡ 0 ∷ []) × ((seen_by sender).tags ≡ 1 ∷ []) }
    ensures count { length result.items ≡ hub.parcels }
{
    hub.end(&mut receiver, sender);
    hub.into_rest(receiver)
}
