//! Workers of which the laws of delivery do not speak.

ghost use Rattle.std.specs.Prelude.{◌≡◌};
ghost use Rattle.kob_scene_text.specs.Scenes.{has_variant};

use crate::scene::{Consumer, Service};

/// Whether the service at its place sends otherwise than the proved router, or the consumer at its
/// place begins at the end, or takes in otherwise than the proved one.
pub(crate) fn has_variant(
    services: &[Service],
    service: usize,
    consumers: &[Consumer],
    consumer: usize,
) -> bool
    ensures { result ≡ has_variant services.now service consumers.now consumer }
{
    services
        .get(service)
        .is_some_and(|service| service.sending.is_variant())
        || consumers.get(consumer).is_some_and(|consumer| consumer.start.is_latest()
            || consumer.taking.is_variant())
}
