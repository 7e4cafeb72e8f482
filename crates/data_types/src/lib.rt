//! The types of a trace, of its configuration and of its metadata.
#![tactic(auto)]

mod arg_fault;
mod args;
mod base;
mod byte_order;
mod clock_type;
mod config;
mod enum_type;
mod environment;
mod features;
mod field_type;
mod int_type;
mod member_type;
mod members;
mod metadata;
mod packet;
mod struct_type;
mod value;

pub use arg_fault::ArgFault;
pub use args::Args;
pub use base::Base;
pub use byte_order::ByteOrder;
pub use clock_type::ClockType;
pub use config::{Config, EventType, StreamType};
pub use enum_type::{EnumType, Mapping};
pub use environment::{EnvironmentEntry, EnvironmentValue};
pub use features::{ContextFeatures, EventFeatures, HeaderFeatures};
pub use field_type::{Element, FieldType};
pub use int_type::IntType;
pub use member_type::{Length, MemberType};
pub use members::Members;
pub use metadata::{Event, Metadata, Stream};
pub use packet::{ReadPacket, Record};
pub use struct_type::StructType;
pub use value::{Value, Values};
