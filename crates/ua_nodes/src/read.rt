//! Items of Read.

ghost use Rattle.std.specs.Prelude.{◌≡◌, IfOk, IfSome, IsTrue, None, true};
ghost use Rattle.ua_variant.specs.View.{variant_of, data_value_of, value_within};
ghost use Rattle.ua_variant.specs.Encodable.{data_value_encodable};
ghost use Rattle.ua_nodes.specs.declared.attribute.Attribute.TheVariants as attribute;
ghost use Rattle.ua_nodes.specs.Attribute.{attribute_of, attribute_value, scalar_variant, type_node};
ghost use Rattle.ua_variant.specs.Data.{localized_text, node_id as id_leaf, valued};
ghost use Rattle.ua_nodes.specs.Range.{asked_range};
ghost use Rattle.ua_nodes.specs.Read.{is_filled_text, is_default_encoding, read_item_reasons, judged};
ghost use Rattle.ua_nodes.specs.Read.{status_alone as refused_data, stamps_of, value_read, read_by, read_answer};
ghost use Rattle.ua_nodes.specs.Sound.{AreNodesSound};
ghost use Rattle.ua_builtin.specs.Reasons.{first_reason};
ghost use Rattle.ua_builtin.specs.declared.date_time.DateTime.{DateTime};
ghost use Rattle.ua_nodes.specs.declared.stamps.Stamps.{Stamps};
ghost use Rattle.ua_nodes.specs.Table.{node_at};

use crate::attribute::Attribute;
use crate::node::Variable;
use crate::range::IndexRange;
use crate::stamps::Stamps;
use crate::table::NodeTable;
use std::alloc::{AllocError, Global};
use ua_builtin::laws::moment_is_encodable;
use ua_builtin::{
    DateTime, Identifier, LocalizedText, NodeId, QualifiedName, StatusCode, UaString,
};
use ua_structures::{ReadValueId, VALUE_ATTRIBUTE};
use ua_variant::{Boxed, DataValue, HeldVariant, Scalar, Variant};

/// The NodeClass of a Variable (OPC 10000-3, 8.29).
const VARIABLE: i32 = 2;

impl NodeTable {
    /// The result of a Read item at a given time: the value of the attribute with the requested
    /// timestamps, or only a StatusCode (OPC 10000-4, 5.11.2).
    pub fn read_item(
        &self,
        alloc: Global,
        item: &ReadValueId,
        stamps: Stamps,
        moment: DateTime,
    ) -> Result<DataValue, AllocError>
        ensures answer { IfOk result
            (λ d. data_value_of d ≡ read_answer (node_at self.now item.now.node_id) item.now stamps moment) }
        ensures encodable { AreNodesSound self.now
            → IfOk result (λ d. IsTrue (data_value_encodable (data_value_of d))) }
    {
        moment_is_encodable(&moment);
        match self.get(&item.node_id) {
            Some(variable) => variable.read(alloc, item, stamps, moment),
            None => Ok(refused(StatusCode::BAD_NODE_ID_UNKNOWN)),
        }
    }
}

impl Variable {
    fn read(
        &self,
        alloc: Global,
        item: &ReadValueId,
        stamps: Stamps,
        moment: DateTime,
    ) -> Result<DataValue, AllocError>
        ensures { IfOk result
            (λ d. data_value_of d ≡ read_by (first_reason (read_item_reasons self.now item.now)) self.now item.now
            stamps moment) }
    {
        if self.gives_whole(item) {
            return self.whole(alloc, stamps, moment);
        }
        self.read_judged(alloc, item, stamps, moment)
    }

    /// Reads any item; apart, so that a Value as it stands has no room to make for other answers.
    #[inline(never)]
    fn read_judged(
        &self,
        alloc: Global,
        item: &ReadValueId,
        stamps: Stamps,
        moment: DateTime,
    ) -> Result<DataValue, AllocError>
        ensures { IfOk result
            (λ d. data_value_of d ≡ read_by (first_reason (read_item_reasons self.now item.now)) self.now item.now
            stamps moment) }
    {
        match self.answer_beside(alloc, item, stamps, moment)? {
            Some(answer) => Ok(answer),
            None => self.whole(alloc, stamps, moment),
        }
    }

    /// The Value as it stands, with its status and times.
    #[inline(always)]
    fn whole(
        &self,
        alloc: Global,
        stamps: Stamps,
        moment: DateTime,
    ) -> Result<DataValue, AllocError>
        ensures { IfOk result
            (λ d. data_value_of d ≡ valued self.now.value (stamps_of self.now true stamps moment)) }
    {
        let value = HeldVariant::new(self.value.try_clone(alloc)?);
        Ok(self.stamped(Some(value), true, stamps, moment))
    }

    /// Whether an item asks for the Value of this node as it stands, by null texts, as nearly each
    /// one, and may read it.
    #[inline(always)]
    pub(crate) fn gives_whole(&self, item: &ReadValueId) -> bool
        ensures { (stamps : Stamps) (moment : DateTime) → IsTrue result
            → read_by (first_reason (read_item_reasons self.now item.now)) self.now item.now stamps moment
            ≡ valued self.now.value (stamps_of self.now true stamps moment) }
    {
        item.attribute_id == VALUE_ATTRIBUTE
            && self.access.readable
            && !item.index_range.is_some()
            && !item.data_encoding.name.is_some()
    }

    /// The answer to an item for this node, unless that is its Value as it stands.
    #[inline(never)]
    pub(crate) fn answer_beside(
        &self,
        alloc: Global,
        item: &ReadValueId,
        stamps: Stamps,
        moment: DateTime,
    ) -> Result<Option<DataValue>, AllocError>
        ensures made { IfOk result
            (λ answer.
            IfSome answer (λ d. data_value_of d ≡ read_by (first_reason (read_item_reasons self.now item.now)) self.now
            item.now stamps moment)) }
        ensures whole { IfOk result (λ answer. answer ≡ None
            → read_by (first_reason (read_item_reasons self.now item.now)) self.now item.now stamps moment
            ≡ valued self.now.value (stamps_of self.now true stamps moment)) }
    {
        let (attribute, range) = match self.judge_read(item) {
            Ok(asked) => asked,
            Err(code) => return Ok(Some(refused(code))),
        };
        if item.attribute_id == VALUE_ATTRIBUTE && range.is_none() {
            return Ok(None);
        }
        let value = HeldVariant::new(self.value_read(alloc, &item.node_id, attribute, range)?);
        Ok(Some(self.stamped(
            Some(value),
            item.attribute_id == VALUE_ATTRIBUTE,
            stamps,
            moment,
        )))
    }

    /// The attribute and the range that an item for this node asks for, or the StatusCode of its
    /// error.
    fn judge_read(&self, item: &ReadValueId) -> Result<(Attribute, Option<IndexRange>), StatusCode>
        ensures { result ≡ judged (first_reason (read_item_reasons self.now item.now))
            (attribute_of item.now.attribute_id) (asked_range item.now.index_range) }
    {
        let Some(attribute) = Attribute::from_id(item.attribute_id) else {
            return Err(StatusCode::BAD_ATTRIBUTE_ID_INVALID);
        };
        let range = IndexRange::asked(&item.index_range);
        let is_array = item.attribute_id == VALUE_ATTRIBUTE && self.array;
        if has_text(&item.index_range) && !(is_array && range.is_some()) {
            return Err(StatusCode::BAD_INDEX_RANGE_INVALID);
        }
        if !is_binary(&item.data_encoding) {
            return Err(StatusCode::BAD_DATA_ENCODING_INVALID);
        }
        if item.attribute_id == VALUE_ATTRIBUTE && !self.access.readable {
            return Err(StatusCode::BAD_NOT_READABLE);
        }
        if let Some(range) = range {
            if range.first as usize >= self.value.element_count() {
                return Err(StatusCode::BAD_INDEX_RANGE_NO_DATA);
            }
        }
        Ok((attribute, range))
    }

    /// What is read of this node: an attribute, or of the Value the part at the places of a range.
    fn value_read(
        &self,
        alloc: Global,
        id: &NodeId,
        attribute: Attribute,
        range: Option<IndexRange>,
    ) -> Result<Variant, AllocError>
        ensures { IfOk result (λ v. variant_of v ≡ value_read id.now self.now attribute range) }
    {
        match range {
            Some(range) => self.value.part(alloc, range),
            None => self.attribute(alloc, id, attribute),
        }
    }

    /// The value of an attribute of this node, which the NodeId names.
    fn attribute(
        &self,
        alloc: Global,
        id: &NodeId,
        attribute: Attribute,
    ) -> Result<Variant, AllocError>
        ensures { IfOk result (λ v. variant_of v ≡ attribute_value id.now self.now attribute) }
    {
        match attribute {
            Attribute::Value => self.value.try_clone(alloc),
            Attribute::NodeId => node_id(id),
            Attribute::NodeClass => Ok(Variant::One(Scalar::Int32(VARIABLE))),
            Attribute::BrowseName => self.browse_name(id),
            Attribute::DisplayName => self.display_name(alloc),
            Attribute::DataType => Ok(self.data_type()),
            Attribute::AccessLevel | Attribute::UserAccessLevel => {
                Ok(Variant::One(Scalar::Byte(self.access.level())))
            }
        }
    }

    // What is seldom asked for is made apart, so that a Value has no room to make for it.

    #[inline(never)]
    fn browse_name(&self, id: &NodeId) -> Result<Variant, AllocError>
        ensures { IfOk result (λ v. variant_of v ≡ attribute_value id.now self.now attribute.BrowseName) }
    {
        Ok(Variant::One(Scalar::QualifiedName(QualifiedName {
            namespace: id.namespace,
            name: self.name.try_clone()?,
        })))
    }

    #[inline(never)]
    fn display_name(&self, alloc: Global) -> Result<Variant, AllocError>
        ensures { IfOk result
            (λ v. variant_of v ≡ scalar_variant (localized_text (record { locale = None; text = self.now.name }))) }
    {
        let text = LocalizedText {
            locale: UaString::null(),
            text: self.name.try_clone()?,
        };
        Ok(Variant::One(Scalar::LocalizedText(Boxed::new(alloc, text)?)))
    }

    #[inline(never)]
    fn data_type(&self) -> Variant
        ensures { variant_of result ≡ scalar_variant (id_leaf (type_node self.now.kind)) }
    {
        Variant::One(Scalar::NodeId(NodeId {
            namespace: 0,
            identifier: Identifier::Numeric(u32::from(self.kind)),
        }))
    }

    /// A value, or none, with the status and times that go with it.
    pub(crate) fn stamped(
        &self,
        value: Option<HeldVariant>,
        is_value: bool,
        stamps: Stamps,
        moment: DateTime,
    ) -> DataValue
        ensures { data_value_of result ≡ value_within value (stamps_of self.now is_value stamps moment) }
    {
        let gives_source = is_value && stamps.gives_source();
        DataValue {
            value,
            status: if is_value { self.status } else { None },
            source_timestamp: if gives_source { self.source_time } else { None },
            source_picoseconds: if gives_source {
                self.source_picoseconds
            } else {
                None
            },
            server_timestamp: if stamps.gives_server() {
                Some(moment)
            } else {
                None
            },
            server_picoseconds: None,
        }
    }
}

#[inline(never)]
fn node_id(id: &NodeId) -> Result<Variant, AllocError>
    ensures { IfOk result (λ v. variant_of v ≡ scalar_variant (id_leaf id.now)) }
{
    Ok(Variant::One(Scalar::NodeId(id.try_clone()?)))
}

/// A status alone.
pub(crate) fn refused(code: StatusCode) -> DataValue
    ensures { data_value_of result ≡ refused_data code }
{
    DataValue {
        value: None,
        status: Some(code),
        source_timestamp: None,
        source_picoseconds: None,
        server_timestamp: None,
        server_picoseconds: None,
    }
}

/// Whether a text is neither null nor empty.
pub(crate) fn has_text(text: &UaString) -> bool
    ensures { result ≡ is_filled_text text.now }
{
    match text.as_str() {
        Some(text) => !text.is_empty(),
        None => false,
    }
}

/// Whether an encoding is the binary one, which is also that without a name.
fn is_binary(encoding: &QualifiedName) -> bool
    ensures { result ≡ is_default_encoding encoding.now }
{
    match encoding.name.as_str() {
        Some(name) => name.is_empty() || (encoding.namespace == 0 && name == "Default Binary"),
        None => true,
    }
}
