//! The names of the standard's requests and responses, by the numbers of their encodings.

/// The table: the binary encodings of 79 requests and responses (OPC 10000-6, A.3), each with the
/// name of its structure, in the order of the numbers.
macro_rules! encodings {
    ($of:ident) => {
        $of!(
            397 ServiceFault,
            422 FindServersRequest,
            425 FindServersResponse,
            428 GetEndpointsRequest,
            431 GetEndpointsResponse,
            437 RegisterServerRequest,
            440 RegisterServerResponse,
            446 OpenSecureChannelRequest,
            449 OpenSecureChannelResponse,
            452 CloseSecureChannelRequest,
            455 CloseSecureChannelResponse,
            461 CreateSessionRequest,
            464 CreateSessionResponse,
            467 ActivateSessionRequest,
            470 ActivateSessionResponse,
            473 CloseSessionRequest,
            476 CloseSessionResponse,
            479 CancelRequest,
            482 CancelResponse,
            488 AddNodesRequest,
            491 AddNodesResponse,
            494 AddReferencesRequest,
            497 AddReferencesResponse,
            500 DeleteNodesRequest,
            503 DeleteNodesResponse,
            506 DeleteReferencesRequest,
            509 DeleteReferencesResponse,
            527 BrowseRequest,
            530 BrowseResponse,
            533 BrowseNextRequest,
            536 BrowseNextResponse,
            554 TranslateBrowsePathsToNodeIdsRequest,
            557 TranslateBrowsePathsToNodeIdsResponse,
            560 RegisterNodesRequest,
            563 RegisterNodesResponse,
            566 UnregisterNodesRequest,
            569 UnregisterNodesResponse,
            615 QueryFirstRequest,
            618 QueryFirstResponse,
            621 QueryNextRequest,
            624 QueryNextResponse,
            631 ReadRequest,
            634 ReadResponse,
            664 HistoryReadRequest,
            667 HistoryReadResponse,
            673 WriteRequest,
            676 WriteResponse,
            700 HistoryUpdateRequest,
            703 HistoryUpdateResponse,
            712 CallRequest,
            715 CallResponse,
            751 CreateMonitoredItemsRequest,
            754 CreateMonitoredItemsResponse,
            763 ModifyMonitoredItemsRequest,
            766 ModifyMonitoredItemsResponse,
            769 SetMonitoringModeRequest,
            772 SetMonitoringModeResponse,
            775 SetTriggeringRequest,
            778 SetTriggeringResponse,
            781 DeleteMonitoredItemsRequest,
            784 DeleteMonitoredItemsResponse,
            787 CreateSubscriptionRequest,
            790 CreateSubscriptionResponse,
            793 ModifySubscriptionRequest,
            796 ModifySubscriptionResponse,
            799 SetPublishingModeRequest,
            802 SetPublishingModeResponse,
            826 PublishRequest,
            829 PublishResponse,
            832 RepublishRequest,
            835 RepublishResponse,
            841 TransferSubscriptionsRequest,
            844 TransferSubscriptionsResponse,
            847 DeleteSubscriptionsRequest,
            850 DeleteSubscriptionsResponse,
            12208 FindServersOnNetworkRequest,
            12209 FindServersOnNetworkResponse,
            12211 RegisterServer2Request,
            12212 RegisterServer2Response
        )
    };
}

macro_rules! numbers_of {
    ($($number:literal $name:ident),+) => {
        [$($number),+]
    };
}

macro_rules! names_of {
    ($($number:literal $name:ident),+) => {
        concat!($(stringify!($name), "\n"),+)
    };
}

/// The numbers of the table.
pub(crate) static ENCODING_NUMBERS: [u32; 79] = encodings!(numbers_of);

/// The names of the table, one on each line.
pub(crate) const ENCODING_NAMES: &str = encodings!(names_of);
