//! The router of a service, as properties of Debezium's outbox event router.

ghost use Rattle.std.specs.Prelude.{◌≡◌, ◌++◌, OnOk};
ghost use Rattle.kob_scene_export.specs.Connector.{by_text, column_text, columns_text, connector_text};
ghost use Rattle.kob_scene_export.specs.Connector.{converters_text, field_text, name_text, placement_text};
ghost use Rattle.kob_scene_export.specs.Connector.{property_text, replacement_text, route_text, router_text, table_text};

use crate::plain::{is_value, push_mark};
use kob_names::Text;
use kob_router::{RouteBy, RouteSettings};
use kob_words::push_bytes;
use std::alloc::AllocError;

/// Appends a service: comments with its name and with what differs in Kafka for its producer, and
/// the properties of Debezium's outbox event router. Then, as comments, the columns of its outbox
/// table. The error is out of memory; `out` then ends with a part of the text.
#[tactic(auto, using(kob_words::proofs::Appending::appending))]
pub fn export_connector(
    out: &mut Vec<u8>,
    name: &Text,
    settings: &RouteSettings,
) -> Result<(), AllocError>
    ensures { OnOk result (out.new.items
        ≡ out.old.items ++ connector_text name.now settings.now) }
{
    push_name(out, name)?;
    push_route(out, settings)?;
    push_columns(out)?;
    push_converters(out)?;
    push_table(out)
}

/// The transform.
#[tactic(auto, unfolding(crate::specs::Connector::router_text))]
fn router_text() -> &'static str
    ensures { result.now ≡ router_text }
{
    "transforms=outbox\ntransforms.outbox.type=io.debezium.transforms.outbox.EventRouter\n"
}

/// The columns of an event.
#[tactic(auto, using(kob_words::proofs::Appending::appending), unfolding(crate::specs::Connector::columns_text))]
fn push_columns(out: &mut Vec<u8>) -> Result<(), AllocError>
    ensures { OnOk result (out.new.items ≡ out.old.items ++ columns_text) }
{
    push_column(out, b"id=id")?;
    push_column(out, b"key=aggregateid")?;
    push_column(out, b"type=type")?;
    push_column(out, b"payload=payload")
}

#[tactic(auto, unfolding(crate::specs::Connector::field_text))]
fn field_text() -> &'static str
    ensures { result.now ≡ field_text }
{
    "transforms.outbox.table.field.event."
}

/// The column that has a field of an event.
#[tactic(auto, using(kob_words::proofs::Appending::appending), unfolding(crate::specs::Connector::column_text))]
fn push_column(out: &mut Vec<u8>, column: &[u8]) -> Result<(), AllocError>
    ensures { OnOk result (out.new.items ≡ out.old.items ++ column_text column.now) }
{
    out.extend_from_slice(field_text().as_bytes())?;
    out.extend_from_slice(column)?;
    out.extend_from_slice(b"\n")
}

/// Keys and values as they are.
#[tactic(auto, using(kob_words::proofs::Appending::appending), unfolding(crate::specs::Connector::converters_text))]
fn push_converters(out: &mut Vec<u8>) -> Result<(), AllocError>
    ensures { OnOk result (out.new.items ≡ out.old.items ++ converters_text) }
{
    out.extend_from_slice(b"key.converter=org.apache.kafka.connect.storage.StringConverter\n")?;
    out.extend_from_slice(b"value.converter=org.apache.kafka.connect.storage.StringConverter\n")
}

/// The table that is read.
#[tactic(auto, using(kob_words::proofs::Appending::appending), unfolding(crate::specs::Connector::table_text))]
fn push_table(out: &mut Vec<u8>) -> Result<(), AllocError>
    ensures { OnOk result (out.new.items ≡ out.old.items ++ table_text) }
{
    out.extend_from_slice(b"# CREATE TABLE outbox (id uuid PRIMARY KEY,\n")?;
    out.extend_from_slice(b"#   aggregatetype varchar(255) NOT NULL,\n")?;
    out.extend_from_slice(b"#   aggregateid varchar(255) NOT NULL,\n")?;
    out.extend_from_slice(b"#   type varchar(255) NOT NULL,\n")?;
    out.extend_from_slice(b"#   payload text NOT NULL);\n")
}

#[tactic(auto, using(kob_words::proofs::Appending::appending), unfolding(crate::specs::Connector::name_text))]
fn push_name(out: &mut Vec<u8>, name: &Text) -> Result<(), AllocError>
    ensures { OnOk result (out.new.items ≡ out.old.items ++ name_text name.now) }
{
    out.extend_from_slice(b"# service ")?;
    push_bytes(out, name.as_str().as_bytes())?;
    out.extend_from_slice(b"\n")?;
    out.extend_from_slice(b"# Here the first batch of its producer on a partition has base 0; ")?;
    out.extend_from_slice(b"in Kafka it may have any.\n")
}

#[tactic(auto, using(kob_words::proofs::Appending::appending), unfolding(crate::specs::Connector::route_text))]
fn push_route(out: &mut Vec<u8>, settings: &RouteSettings) -> Result<(), AllocError>
    ensures { OnOk result (out.new.items ≡ out.old.items ++ route_text settings.now) }
{
    out.extend_from_slice(router_text().as_bytes())?;
    out.extend_from_slice(by_text(settings.by).as_bytes())?;
    push_property(out, replacement_text().as_bytes(), &settings.replacement)?;
    push_property(out, placement_text().as_bytes(), &settings.placement)
}

#[tactic(auto, unfolding(crate::specs::Connector::replacement_text))]
fn replacement_text() -> &'static str
    ensures { result.now ≡ replacement_text }
{
    "transforms.outbox.route.topic.replacement="
}

#[tactic(auto, unfolding(crate::specs::Connector::placement_text))]
fn placement_text() -> &'static str
    ensures { result.now ≡ placement_text }
{
    "transforms.outbox.table.fields.additional.placement="
}

fn by_text(by: RouteBy) -> &'static str
    ensures { result.now ≡ by_text by }
{
    match by {
        RouteBy::AggregateType => "transforms.outbox.route.by.field=aggregatetype\n",
        RouteBy::AggregateId => "transforms.outbox.route.by.field=aggregateid\n",
    }
}

/// Appends a property, as a comment if its value is empty or has to be escaped.
#[tactic(auto, using(kob_words::proofs::Appending::appending), unfolding(crate::specs::Connector::property_text))]
fn push_property(out: &mut Vec<u8>, name: &[u8], value: &Text) -> Result<(), AllocError>
    ensures { OnOk result (out.new.items ≡ out.old.items ++ property_text name.now value.now) }
{
    push_mark(out, is_value(value.as_str().as_bytes()))?;
    out.extend_from_slice(name)?;
    push_bytes(out, value.as_str().as_bytes())?;
    out.extend_from_slice(b"\n")
}
