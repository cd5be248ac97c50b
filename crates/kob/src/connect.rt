//! A service's router as a document for Kafka Connect, and its table.

ghost use Rattle.std.specs.List.{list_all};
ghost use Rattle.std.specs.Prelude.{◌≡◌, ◌++◌, OnOk, codes, slice_get};
ghost use Rattle.kob.specs.Connect.{by_property, closing_text, config_text, connect_text};
ghost use Rattle.kob.specs.Connect.{connector_at, connector_of, default_replacement};
ghost use Rattle.kob.specs.Connect.{is_slot_byte, opening_text, placement_key_text, prefix_key_text};
ghost use Rattle.kob.specs.Connect.{property_unless, publication_key_text, replacement_key_text};
ghost use Rattle.kob.specs.Connect.{route_properties, slot_key_text, slot_name, slot_text};
ghost use Rattle.kob.specs.Connect.{table_of, transform_text};
ghost use Rattle.kob_scene_play.specs.Json.{json_string};

use kob_names::Text;
use kob_router::{RouteBy, RouteSettings};
use kob_scene_play::push_json_string;
use kob_scene_text::Service;
use std::alloc::AllocError;

/// A database whose outbox table a connector reads.
#[derive(Clone, Copy)]
pub enum Database {
    Postgresql,
    Mysql,
}

/// Adds the document for the service at a place, as Kafka Connect's REST interface takes it:
/// `POST /connectors`. What a user has to fill in is in angle brackets. A property that has
/// Debezium's default is left out. The error is out of memory.
pub fn push_connector(
    out: &mut Vec<u8>,
    database: Database,
    services: &[Service],
    place: usize,
) -> Result<(), AllocError>
    ensures { OnOk result (out.new.items
        ≡ out.old.items ++ connector_at database (slice_get services.now place)) }
{
    match services.get(place) {
        Some(service) => push_connect(out, database, service),
        None => Ok(()),
    }
}

#[tactic(auto, using(kob_words::proofs::Appending::appending))]
fn push_connect(out: &mut Vec<u8>, database: Database, service: &Service) -> Result<(), AllocError>
    ensures { OnOk result (out.new.items ≡ out.old.items ++ connect_text database service.now) }
{
    out.extend_from_slice(opening_text().as_bytes())?;
    push_json_string(out, service.name.as_str().as_bytes())?;
    out.extend_from_slice(config_text().as_bytes())?;
    out.extend_from_slice(connector_of(database).as_bytes())?;
    push_slot(out, database, &service.name)?;
    out.extend_from_slice(prefix_key_text().as_bytes())?;
    push_json_string(out, service.name.as_str().as_bytes())?;
    out.extend_from_slice(transform_text().as_bytes())?;
    push_route(out, &service.settings)?;
    out.extend_from_slice(closing_text().as_bytes())
}

/// The replication slot and the publication of the connector, of which each needs its own.
#[tactic(auto, using(kob_words::proofs::Appending::appending))]
fn push_slot(out: &mut Vec<u8>, database: Database, name: &Text) -> Result<(), AllocError>
    ensures { OnOk result (out.new.items ≡ out.old.items ++ slot_text database name.now) }
{
    match database {
        Database::Postgresql => {
            push_property(out, slot_key_text(), slot_name(name, "<SLOT_NAME>"))?;
            push_property(
                out,
                publication_key_text(),
                slot_name(name, "<PUBLICATION_NAME>"),
            )
        }
        Database::Mysql => Ok(()),
    }
}

/// The name, if PostgreSQL takes it for a slot.
fn slot_name<'a>(name: &'a Text, other: &'a str) -> &'a str
    ensures { result.now ≡ slot_name name.now other.now }
{
    let bytes = name.as_str().as_bytes();
    if bytes.len() <= 63 && has_slot_bytes(bytes) {
        name.as_str()
    } else {
        other
    }
}

fn has_slot_bytes(name: &[u8]) -> bool
    ensures { result ≡ list_all is_slot_byte name.now }
{
    name.iter().all(|byte| byte.is_ascii_lowercase() || byte.is_ascii_digit() || *byte == b'_')
}

/// Debezium's connector for the database.
#[tactic(auto, unfolding(crate::specs::Connect::connector_of))]
fn connector_of(database: Database) -> &'static str
    ensures { result.now ≡ connector_of database }
{
    match database {
        Database::Postgresql =>
            "    \"connector.class\": \"io.debezium.connector.postgresql.PostgresConnector\",\n    \"plugin.name\": \"pgoutput\",\n    \"database.hostname\": \"<DATABASE_HOST>\",\n    \"database.user\": \"<DATABASE_USER>\",\n    \"database.password\": \"<DATABASE_PASSWORD>\",\n    \"database.dbname\": \"<DATABASE_NAME>\",\n    \"table.include.list\": \"public.outbox\",\n",
        Database::Mysql =>
            "    \"connector.class\": \"io.debezium.connector.mysql.MySqlConnector\",\n    \"database.hostname\": \"<DATABASE_HOST>\",\n    \"database.user\": \"<DATABASE_USER>\",\n    \"database.password\": \"<DATABASE_PASSWORD>\",\n    \"database.server.id\": \"<A_NUMBER_THAT_NO_OTHER_REPLICA_HAS>\",\n    \"schema.history.internal.kafka.bootstrap.servers\": \"<BOOTSTRAP_SERVERS>\",\n    \"schema.history.internal.kafka.topic\": \"<A_TOPIC_THAT_NO_OTHER_CONNECTOR_HAS>\",\n    \"table.include.list\": \"<DATABASE_NAME>.outbox\",\n",
    }
}

/// The properties of a route that are not Debezium's defaults.
#[tactic(auto, using(kob_words::proofs::Appending::appending))]
fn push_route(out: &mut Vec<u8>, settings: &RouteSettings) -> Result<(), AllocError>
    ensures { OnOk result (out.new.items ≡ out.old.items ++ route_properties settings.now) }
{
    out.extend_from_slice(by_property(settings.by).as_bytes())?;
    push_unless(
        out,
        default_replacement(),
        replacement_key_text(),
        &settings.replacement,
    )?;
    push_unless(out, "", placement_key_text(), &settings.placement)
}

/// The column that names the topic, if it is not Debezium's default.
#[tactic(auto, unfolding(crate::specs::Connect::by_property))]
fn by_property(by: RouteBy) -> &'static str
    ensures { result.now ≡ by_property by }
{
    match by {
        RouteBy::AggregateType => "",
        RouteBy::AggregateId => "    \"transforms.outbox.route.by.field\": \"aggregateid\",\n",
    }
}

fn push_unless(out: &mut Vec<u8>, default: &str, name: &str, value: &Text) -> Result<(), AllocError>
    ensures { OnOk result (out.new.items
        ≡ out.old.items ++ property_unless default.now name.now value.now) }
{
    if value.as_str() == default {
        Ok(())
    } else {
        push_property(out, name, value.as_str())
    }
}

#[tactic(auto, using(kob_words::proofs::Appending::appending))]
fn push_property(out: &mut Vec<u8>, name: &str, value: &str) -> Result<(), AllocError>
    ensures { OnOk result (out.new.items
        ≡ out.old.items ++ (name.now ++ json_string value.now ++ codes ",\n")) }
{
    out.extend_from_slice(name.as_bytes())?;
    push_json_string(out, value.as_bytes())?;
    out.extend_from_slice(b",\n")
}

/// The statement that creates the outbox table which the properties expect.
#[tactic(auto, unfolding(crate::specs::Connect::table_of))]
pub fn table_of(database: Database) -> &'static str
    ensures { result.now ≡ table_of database }
{
    match database {
        Database::Postgresql =>
            "CREATE TABLE outbox (\n  id uuid PRIMARY KEY,\n  aggregatetype varchar(255) NOT NULL,\n  aggregateid varchar(255) NOT NULL,\n  type varchar(255) NOT NULL,\n  payload text NOT NULL\n);\n",
        Database::Mysql =>
            "CREATE TABLE outbox (\n  id char(36) PRIMARY KEY,\n  aggregatetype varchar(255) NOT NULL,\n  aggregateid varchar(255) NOT NULL,\n  type varchar(255) NOT NULL,\n  payload longtext NOT NULL\n);\n",
    }
}

/// A connector: its name, and what it is configured by.
#[tactic(auto, unfolding(crate::specs::Connect::opening_text))]
fn opening_text() -> &'static str
    ensures { result.now ≡ opening_text }
{
    "{\n  \"name\": "
}

/// Between the name and the properties.
#[tactic(auto, unfolding(crate::specs::Connect::config_text))]
fn config_text() -> &'static str
    ensures { result.now ≡ config_text }
{
    ",\n  \"config\": {\n"
}

/// The name of a property.
#[tactic(auto, unfolding(crate::specs::Connect::slot_key_text))]
fn slot_key_text() -> &'static str
    ensures { result.now ≡ slot_key_text }
{
    "    \"slot.name\": "
}

/// The name of a property.
#[tactic(auto, unfolding(crate::specs::Connect::publication_key_text))]
fn publication_key_text() -> &'static str
    ensures { result.now ≡ publication_key_text }
{
    "    \"publication.name\": "
}

/// The name of a property.
#[tactic(auto, unfolding(crate::specs::Connect::prefix_key_text))]
fn prefix_key_text() -> &'static str
    ensures { result.now ≡ prefix_key_text }
{
    "    \"topic.prefix\": "
}

/// The outbox event router.
#[tactic(auto, unfolding(crate::specs::Connect::transform_text))]
fn transform_text() -> &'static str
    ensures { result.now ≡ transform_text }
{
    ",\n    \"transforms\": \"outbox\",\n    \"transforms.outbox.type\": \"io.debezium.transforms.outbox.EventRouter\",\n"
}

/// Debezium's default for the topic of a row.
#[tactic(auto, unfolding(crate::specs::Connect::default_replacement))]
fn default_replacement() -> &'static str
    ensures { result.now ≡ default_replacement }
{
    "outbox.event.${routedByValue}"
}

/// The name of a property.
#[tactic(auto, unfolding(crate::specs::Connect::replacement_key_text))]
fn replacement_key_text() -> &'static str
    ensures { result.now ≡ replacement_key_text }
{
    "    \"transforms.outbox.route.topic.replacement\": "
}

/// The name of a property.
#[tactic(auto, unfolding(crate::specs::Connect::placement_key_text))]
fn placement_key_text() -> &'static str
    ensures { result.now ≡ placement_key_text }
{
    "    \"transforms.outbox.table.fields.additional.placement\": "
}

/// Keys and values as they are.
#[tactic(auto, unfolding(crate::specs::Connect::closing_text))]
fn closing_text() -> &'static str
    ensures { result.now ≡ closing_text }
{
    "    \"key.converter\": \"org.apache.kafka.connect.storage.StringConverter\",\n    \"value.converter\": \"org.apache.kafka.connect.storage.StringConverter\"\n  }\n}\n"
}
